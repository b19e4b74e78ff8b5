// What a rehearsal answers.
use std::error::Error;
use std::fmt;

#[derive(Clone, Copy, Debug, PartialEq, Eq)]
pub enum Verdict {
    // The list is a plan.
    Plan,
    // The step is no action of the task.
    UnknownAction { step: usize },
    // At the step this precondition, the first such, does not stand.
    Blocked { step: usize, fact: u8 },
    // After the last step this goal fact, the first such, does not stand.
    GoalMissing { fact: u8 },
}

impl fmt::Display for Verdict {
    fn fmt<W: fmt::Write>(&self, f: &mut fmt::Formatter<W>) -> fmt::Result {
        match self {
            Verdict::Plan => write!(f, "a plan"),
            Verdict::UnknownAction { step } => write!(
                f,
                "refused 12: step {step} is no action of the task"
            ),
            Verdict::Blocked { step, fact } => write!(
                f,
                "refused 13: step {step} is blocked, fact {fact} does not stand"
            ),
            Verdict::GoalMissing { fact } => write!(
                f,
                "refused 14: after the last step goal fact {fact} does not stand"
            ),
        }
    }
}

// The state has a fact that the task lacks; this is the first.
#[derive(Clone, Copy, Debug, PartialEq, Eq)]
pub struct UnknownFact {
    pub fact: u8,
}

impl fmt::Display for UnknownFact {
    fn fmt<W: fmt::Write>(&self, f: &mut fmt::Formatter<W>) -> fmt::Result {
        let fact = self.fact;
        write!(
            f,
            "refused 8: the state has fact {fact}, which the task lacks"
        )
    }
}

impl Error for UnknownFact {}
