// What is refused when a task is made.
use std::error::Error;
use std::fmt;

// Why a fact cannot join a list.
#[derive(Clone, Copy, Debug, PartialEq, Eq)]
pub enum ListFault {
    // The list is full.
    Full,
    // The fact is not above the last one.
    NotRising,
}

impl fmt::Display for ListFault {
    fn fmt<W: fmt::Write>(&self, f: &mut fmt::Formatter<W>) -> fmt::Result {
        match self {
            ListFault::Full => write!(f, "refused 5: the list is full"),
            ListFault::NotRising => write!(f, "refused 6: the fact is not above the list's last"),
        }
    }
}

impl Error for ListFault {}

// Why parts make no task.
#[derive(Clone, Copy, Debug, PartialEq, Eq)]
pub enum TaskFault {
    // A task has at least one fact.
    NoFacts,
    // A task has at most 512 actions.
    TooManyActions,
    // The action of this number, the first such, names a fact that the task lacks.
    InAction(usize),
    // The goal names one.
    InGoal,
    // The start names one.
    InStart,
}

impl fmt::Display for TaskFault {
    fn fmt<W: fmt::Write>(&self, f: &mut fmt::Formatter<W>) -> fmt::Result {
        match self {
            TaskFault::NoFacts => write!(f, "refused 5: no facts"),
            TaskFault::TooManyActions => write!(f, "refused 5: more than 512 actions"),
            TaskFault::InAction(number) => write!(
                f,
                "refused 5: action {number} names a fact that the task lacks"
            ),
            TaskFault::InGoal => write!(f, "refused 5: the goal names a fact that the task lacks"),
            TaskFault::InStart => write!(
                f,
                "refused 5: the start names a fact that the task lacks"
            ),
        }
    }
}

impl Error for TaskFault {}
