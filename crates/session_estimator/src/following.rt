// Moving a session's facts to those of another state.
ghost use Rattle.std.specs.Prelude.{◌≡◌, ◌<◌};
ghost use Rattle.model.specs.Figures.{max_rule};
ghost use Rattle.strips.specs.Standing.{standing};
ghost use Rattle.session.specs.Sessions.{task_of};
ghost use Rattle.session_estimator.specs.Estimating.{Aligned, Followed};

use figure::figure::Figure;
use queue::queue::Queue;
use rules::largest::MaxRule;
use session::session::Session;
use strips::state::State;

// Makes one fact stand or fall, where it does not already.
fn align<Q: Queue<Key = Figure>>(session: &mut Session<MaxRule, Q>, fact: u8, stand: bool)
    requires { fact < (task_of session.old).facts }
    ensures { Aligned (λ _. max_rule) Q.Queue.sound Q.Queue.pairs session.old session.new fact stand }
{
    if session.stands(fact) == stand {
        return;
    }
    if stand {
        let _ = session.enter(fact);
    } else {
        let _ = session.strike(fact);
    }
}

// Makes the task's facts stand as in the state; facts beyond the task are passed over.
pub(crate) fn follow<Q: Queue<Key = Figure>>(session: &mut Session<MaxRule, Q>, state: &State)
    ensures { Followed (λ _. max_rule) Q.Queue.sound Q.Queue.pairs session.old session.new (task_of session.old).facts (standing state.now) }
{
    let facts = session.task().facts();
    for fact in 0..facts {
        align(session, fact, state.stands(fact));
    }
}
