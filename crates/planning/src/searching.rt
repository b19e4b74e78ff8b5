// A search over any estimator, by the call that carries the whole law.
ghost use Rattle.std.specs.Prelude.{◌≡◌, map, IfOk, Ok};
ghost use Rattle.model.specs.Figures.{max_rule};
ghost use Rattle.model.specs.Heuristics.{largest_of};
ghost use Rattle.strips.specs.Tasks.{problem};
ghost use Rattle.session.specs.Works.{call_of};
ghost use Rattle.planning.specs.Laws.{GoalTold, plan_length, PlannedLaw};
ghost use Rattle.planning.specs.Premises.{asked, Told, SomeTold, Unrefused};

use crate::asking::{told_figure, wanting};
use crate::lending::lend;
use crate::lent::Lent;
use crate::planned::Planned;
use engine::whole::work_and_search;
use engine::worked::Worked;
use estimator::estimator::Estimator;
use figure::figure::Figure;
use heap::heap::HeapQueue;
use queue::queue::Queue;
use rules::additive::AdditiveRule;
use search_law::outcome::Outcome;
use session::call::Call;
use std::alloc::{AllocError, Global};
use strips::task::Task;

// How many of the step list's actions are a plan.
fn plan_length(outcome: Outcome) -> usize
    ensures { result ≡ plan_length outcome }
{
    match outcome {
        Outcome::Plan { length, used: _ } => length,
        _ => 0,
    }
}

// The goal figure that the session told, and how the search ended, which was not refused.
fn results_of<R: Drop, Q: Drop>(worked: Worked<R, Q>) -> (Figure, Outcome)
    requires told { SomeTold worked.answers.items }
    requires unrefused { Unrefused worked.outcome }
    ensures tells { Told worked.answers.items result.0 }
    ensures ended { worked.outcome ≡ Ok result.1 }
{
    let figure = told_figure(worked.answers.as_slice());
    let Ok(outcome) = worked.outcome else {
        unreachable()
    };
    (figure, outcome)
}

// Tells the additive goal figure by a session of its own, and searches with 1,024 rows.
pub(crate) fn plan_over<E: Estimator + Drop>(
    heap: Global,
    task: &Task,
    calls: &[Call],
    max: Figure,
    est: E,
) -> Result<Planned, AllocError>
    requires calls { map call_of calls.now ≡ asked (problem task.now) }
    requires figure { GoalTold max_rule largest_of (problem task.now) max }
    requires fits { E.Estimator.suits est (problem task.now) }
    requires agrees { E.Estimator.agrees est }
    ensures { IfOk result (PlannedLaw (problem task.now)) }
{
    let own = task.twin(heap)?;
    let queue: HeapQueue<Figure> = HeapQueue::new(heap, own.item_count())?;
    let Lent {
        mut frontier,
        mut rows,
        mut steps,
    } = lend(heap)?;
    let start = task.start_state();
    let mut asked = est;
    let worked = work_and_search(
        heap,
        own,
        AdditiveRule,
        queue,
        calls,
        task,
        &start,
        &mut asked,
        &mut frontier,
        &mut rows,
        &mut steps,
    )
    .map_err(wanting)?;
    let (additive, outcome) = results_of(worked);
    steps.truncate(plan_length(outcome));
    Ok(Planned {
        additive,
        max,
        outcome,
        steps,
    })
}
