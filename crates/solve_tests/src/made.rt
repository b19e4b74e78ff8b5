// Tasks that the tests are made of.
use std::alloc::Global;
use std::test::Fail;
use strips::action::Action;
use strips::list::FactList;
use strips::task::Task;

fn list_of<const N: usize>(facts: &[u8]) -> Result<FactList<N>, Fail> {
    FactList::try_from(facts).map_err(|_| Fail::new("a list that should do"))
}

fn action_of(pre: &[u8], add: &[u8], del: &[u8]) -> Result<Action, Fail> {
    Ok(Action::new(list_of(pre)?, list_of(add)?, list_of(del)?))
}

fn task_of(facts: u8, actions: Vec<Action>, goal: &[u8], start: &[u8]) -> Result<Task, Fail> {
    Task::new(facts, actions, list_of(goal)?, list_of(start)?).map_err(|_| Fail::new(
        "parts that should make a task",
    ))
}

// Actions 0 → 1 and 1 → 2, each deleting what it needs.
pub fn task_a(heap: Global) -> Result<Task, Fail> {
    let mut actions = Vec::new(heap);
    actions.push(action_of(&[0], &[1], &[0])?)?;
    actions.push(action_of(&[1], &[2], &[1])?)?;
    task_of(3, actions, &[2], &[0])
}

// One action leads from 0 to 1 and 2.
pub fn task_b(heap: Global) -> Result<Task, Fail> {
    let mut actions = Vec::new(heap);
    actions.push(action_of(&[0], &[1, 2], &[])?)?;
    task_of(3, actions, &[1, 2], &[0])
}

// Actions 1 → 2, 2 → 1 and 0 → 1.
pub fn task_c(heap: Global) -> Result<Task, Fail> {
    let mut actions = Vec::new(heap);
    actions.push(action_of(&[1], &[2], &[])?)?;
    actions.push(action_of(&[2], &[1], &[])?)?;
    actions.push(action_of(&[0], &[1], &[])?)?;
    task_of(3, actions, &[2], &[0])
}

// Actions 0 → 1, 2 → 3 and 3 → 1.
pub fn task_d(heap: Global) -> Result<Task, Fail> {
    let mut actions = Vec::new(heap);
    actions.push(action_of(&[0], &[1], &[])?)?;
    actions.push(action_of(&[2], &[3], &[])?)?;
    actions.push(action_of(&[3], &[1], &[])?)?;
    task_of(4, actions, &[1], &[0, 2])
}
