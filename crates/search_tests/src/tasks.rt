// Small tasks.
ghost use Rattle.std.specs.Prelude.{◌<◌};

use std::alloc::Global;
use strips::action::Action;
use strips::list::FactList;
use strips::task::Task;

fn list<const N: usize>(facts: &[u8]) -> Option<FactList<N>> {
    facts.try_into().ok()
}

fn action(pre: &[u8], add: &[u8], del: &[u8]) -> Option<Action> {
    Some(Action::new(list(pre)?, list(add)?, list(del)?))
}

fn task(facts: u8, actions: Vec<Action>, goal: &[u8], start: &[u8]) -> Option<Task> {
    Task::new(facts, actions, list(goal)?, list(start)?).ok()
}

// The move of a disc from one peg to another; the smaller discs are on the third.
fn shift(disc: u8, from: u8, to: u8, third: u8) -> Option<Action>
    requires { (from < 3) × (to < 3) × (third < 3) }
{
    if disc == 0 {
        action(&[from], &[to], &[from])
    } else if disc == 1 {
        action(&[third, 3 + from], &[3 + to], &[3 + from])
    } else {
        action(&[third, 3 + third, 6 + from], &[6 + to], &[6 + from])
    }
}

// Towers of Hanoi with three discs: fact 3 × disc + peg. The shortest plan has 7 steps, and 27 states can be reached.
pub fn hanoi(heap: Global) -> Option<Task> {
    let mut actions = Vec::new(heap);
    for disc in 0..3 {
        for from in 0..3 {
            for to in 0..3 {
                if from != to {
                    actions.push(shift(disc, from, to, 3 - from - to)?).ok()?;
                }
            }
        }
    }
    task(9, actions, &[2, 5, 8], &[0, 3, 6])
}

// One action from 0 to 1, and the goal 2: there is no plan.
pub fn blocked(heap: Global) -> Option<Task> {
    let mut actions = Vec::new(heap);
    actions.push(action(&[0], &[1], &[0])?).ok()?;
    task(3, actions, &[2], &[0])
}

// From 0 to 3 by way of 1, or by way of 2 and 4; then on to 5.
pub fn detour(heap: Global) -> Option<Task> {
    let mut actions = Vec::new(heap);
    actions.push(action(&[0], &[1], &[0])?).ok()?;
    actions.push(action(&[1], &[3], &[1])?).ok()?;
    actions.push(action(&[0], &[2], &[0])?).ok()?;
    actions.push(action(&[2], &[4], &[2])?).ok()?;
    actions.push(action(&[4], &[3], &[4])?).ok()?;
    actions.push(action(&[3], &[5], &[3])?).ok()?;
    task(6, actions, &[5], &[0])
}
