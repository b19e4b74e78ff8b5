// Rehearsing a plan.
ghost use Rattle.std.specs.Prelude.{◌≡◌};
ghost use Rattle.strips.specs.Standing.{standing};
ghost use Rattle.strips.specs.Tasks.{problem};
ghost use Rattle.rehearsal.specs.Rehearsed.{Rehearsed};

use crate::guard::Guard;
use crate::verdict::{UnknownFact, Verdict};
use strips::state::State;
use strips::task::Task;

// Takes the steps on the live state, in turn, and answers whether they are a plan. The live state stands afterwards as it stood.
pub fn rehearse(task: &Task, live: &mut State, steps: &[u16]) -> Result<Verdict, UnknownFact>
    ensures same { live.new ≡ live.old }
    ensures answer { Rehearsed (problem task.now) (standing live.old) steps.now result }
{
    if let Some(fact) = live.first_from(task.facts()) {
        return Err(UnknownFact { fact });
    }
    let saved = *live;
    let guard = Guard { live, saved };
    for (step, number) in steps.iter().enumerate() {
        let Some(action) = task.action(*number as usize) else {
            return Ok(Verdict::UnknownAction { step });
        };
        if let Some(fact) = guard.live.first_missing(action.preconditions()) {
            return Ok(Verdict::Blocked { step, fact });
        }
        *guard.live = task.after(*number as usize, guard.live);
    }
    if let Some(fact) = guard.live.first_missing(task.goal()) {
        return Ok(Verdict::GoalMissing { fact });
    }
    Ok(Verdict::Plan)
}
