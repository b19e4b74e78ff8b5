// What is searched for.
use strips::state::State;
use strips::task::Task;

// A plan of the task from the state, with so many rows.
#[derive(Clone, Copy)]
pub(crate) struct Query<'a> {
    pub(crate) task: &'a Task,
    pub(crate) start: &'a State,
    pub(crate) rows: usize,
}
