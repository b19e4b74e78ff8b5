// The equations of a task's items.
use strips::state::State;
use strips::task::Task;

// Those of the task in the state, under the rule. All three are lent, so that a copy asks nothing of the rule.
#[derive_where(Clone, Copy)]
pub(crate) struct Equations<'a, R> {
    pub(crate) task: &'a Task,
    pub(crate) state: &'a State,
    pub(crate) rule: &'a R,
}
