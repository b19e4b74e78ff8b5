// Parts that the tests are made of.
use std::alloc::Global;
use std::test::Fail;
use strips::action::Action;
use strips::fault::TaskFault;
use strips::task::Task;

// The facts from `from` on, `count` of them.
pub fn run_of(heap: Global, from: u8, count: usize) -> Result<Vec<u8>, Fail> {
    Ok((from..=255).take(count).collect(heap)?)
}

pub fn action_of(pre: &[u8], add: &[u8], del: &[u8]) -> Result<Action, Fail> {
    Ok(Action::new(pre.try_into()?, add.try_into()?, del.try_into()?))
}

pub fn task_of(facts: u8, actions: Vec<Action>, goal: &[u8], start: &[u8]) -> Result<Task, Fail> {
    match Task::new(facts, actions, goal.try_into()?, start.try_into()?) {
        Ok(task) => Ok(task),
        Err((fault, _)) => Err(Fail::new(fault)),
    }
}

// Why the parts make no task.
pub fn fault_of(
    facts: u8,
    actions: Vec<Action>,
    goal: &[u8],
    start: &[u8],
) -> Result<TaskFault, Fail> {
    match Task::new(facts, actions, goal.try_into()?, start.try_into()?) {
        Ok(_) => Err(Fail::new("parts that should make no task")),
        Err((fault, _)) => Ok(fault),
    }
}

// Three facts; action 0 leads from 0 to 1 and action 1 from 1 to 2, each deleting what it needs.
pub fn two_steps(heap: Global) -> Result<Task, Fail> {
    let mut actions = Vec::new(heap);
    actions.push(action_of(&[0], &[1], &[0])?)?;
    actions.push(action_of(&[1], &[2], &[1])?)?;
    task_of(3, actions, &[2], &[0])
}
