// Tasks and numbers that the tests are made of.
use std::alloc::Global;
use std::test::Fail;
use strips::action::Action;
use strips::list::FactList;
use strips::task::Task;

// A fact that is not above the last is left out.
pub fn list_of<const N: usize>(facts: &[u8]) -> FactList<N> {
    let mut list = FactList::new();
    for f in facts {
        let _ = list.push(*f);
    }
    list
}

pub fn action_of(pre: &[u8], add: &[u8]) -> Action {
    Action::new(list_of(pre), list_of(add), list_of(&[]))
}

pub fn task_of(facts: u8, actions: Vec<Action>, goal: &[u8], start: &[u8]) -> Result<Task, Fail> {
    Task::new(facts, actions, list_of(goal), list_of(start)).map_err(|_| Fail::new(
        "parts that should make a task",
    ))
}

// Actions 1 → 2, 2 → 1 and 0 → 1: the first two hold each other up.
pub fn task_c(heap: Global) -> Result<Task, Fail> {
    let mut actions = Vec::new(heap);
    actions.push(action_of(&[1], &[2]))?;
    actions.push(action_of(&[2], &[1]))?;
    actions.push(action_of(&[0], &[1]))?;
    task_of(3, actions, &[2], &[0])
}

// Actions 0 → 1, 2 → 3 and 3 → 1: another way to fact 1.
pub fn task_d(heap: Global) -> Result<Task, Fail> {
    let mut actions = Vec::new(heap);
    actions.push(action_of(&[0], &[1]))?;
    actions.push(action_of(&[2], &[3]))?;
    actions.push(action_of(&[3], &[1]))?;
    task_of(4, actions, &[1], &[0, 2])
}

// Fixed pseudo-random numbers.
#[derive(Clone, Copy)]
pub struct Random(pub u32);

impl Random {
    // The next number below 256.
    pub fn byte(&mut self) -> u8 {
        self.0 = self.0.wrapping_mul(1_664_525).wrapping_add(1_013_904_223);
        (self.0 >> 24) as u8
    }
}

// Sixteen facts, and actions that each need and add one or two of them.
pub fn random_task(heap: Global, seed: u32) -> Result<Task, Fail> {
    let mut random = Random(seed);
    let mut actions = Vec::new(heap);
    for _ in 0..24 {
        let needs = [random.byte() % 16, random.byte() % 16];
        let adds = [random.byte() % 16, random.byte() % 16];
        actions.push(action_of(&needs, &adds))?;
    }
    task_of(16, actions, &[3, 7, 12], &[0, 5])
}
