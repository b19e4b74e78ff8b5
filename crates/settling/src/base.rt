// What never changes while figures are held.
use links::links::Links;
use strips::task::Task;

// A task with its indexes, and the cost rule.
#[derive(Drop)]
pub struct Base<R> {
    pub task: Task,
    pub rule: R,
    pub links: Links,
}
