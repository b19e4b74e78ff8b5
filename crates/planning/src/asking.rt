// The calls that ask a fresh session for its goal figure, and what comes of them.
ghost use Rattle.std.specs.Prelude.{◌≡◌, true, map};
ghost use Rattle.strips.specs.Tasks.{problem};
ghost use Rattle.session.specs.Openings.{Why};
ghost use Rattle.session.specs.Works.{call_of};
ghost use Rattle.planning.specs.Premises.{asked, Told, SomeTold};

use figure::figure::Figure;
use session::call::{Answer, Call};
use session::fault::SessionFault;
use session::unopened::Unopened;
use std::alloc::AllocError;
use strips::task::Task;

// Settle with two rows for each item, and tell the goal figure.
pub(crate) fn calls_for(task: &Task) -> [Call; 2]
    ensures { map call_of result ≡ asked (problem task.now) }
{
    [Call::Settle(2 * task.item_count()), Call::Goal]
}

// The figure that the last of the two answers tells.
pub(crate) fn told_figure(answers: &[Answer]) -> Figure
    requires { SomeTold answers.now }
    ensures { Told answers.now result }
{
    match answers {
        [.., Answer::Is(figure)] => *figure,
        _ => unreachable(),
    }
}

// Where the queue was ready, an opening fails for want of memory alone.
pub(crate) fn wanting<R: Drop, Q: Drop>(unopened: Unopened<R, Q>) -> AllocError
    requires { Why true unopened.fault }
{
    match unopened.fault {
        SessionFault::Memory => AllocError,
        _ => unreachable(),
    }
}
