// An opening that was refused.
use crate::fault::SessionFault;
use strips::task::Task;

// Why, and all that was given to it.
#[derive(Drop)]
pub struct Unopened<R, Q> {
    pub fault: SessionFault,
    pub task: Task,
    pub rule: R,
    pub queue: Q,
}
