// Why there is no answer.
use textfault::fault::LoadFault;

#[derive(Clone, Copy)]
pub enum Failure {
    // The text states no task.
    Text(LoadFault),
    // The bytes are those of no calls.
    Calls,
    // A rule, a queue or an estimator that there is not.
    Choice,
    Memory,
}
