// The estimator of a search: a session of its own, that has told the max goal figure of the start.
ghost use Rattle.std.specs.Prelude.{◌≡◌, map, IfOk};
ghost use Rattle.model.specs.Figures.{max_rule};
ghost use Rattle.model.specs.Heuristics.{largest_of};
ghost use Rattle.strips.specs.Tasks.{problem};
ghost use Rattle.session.specs.Works.{call_of};
ghost use Rattle.planning.specs.Laws.{GoalTold};
ghost use Rattle.planning.specs.Premises.{asked, Estimating};

use crate::asking::{told_figure, wanting};
use estimator::blind::Blind;
use estimator::keeping::Keeping;
use estimator::larger::Larger;
use figure::figure::Figure;
use heap::heap::HeapQueue;
use queue::queue::Queue;
use rules::largest::MaxRule;
use session::call::Call;
use session::session::Session;
use session_estimator::session_estimator::SessionEstimator;
use std::alloc::{AllocError, Global};
use strips::task::Task;

pub(crate) type Estimator = Keeping<Larger<SessionEstimator<HeapQueue<Figure>>, Blind>>;

// The max goal figure of the start, and keeping over larger of the session that told it and blind.
pub(crate) fn estimator_of(
    heap: Global,
    task: &Task,
    calls: &[Call],
) -> Result<(Figure, Estimator), AllocError>
    requires { map call_of calls.now ≡ asked (problem task.now) }
    ensures figure { IfOk result (λ w. GoalTold max_rule largest_of (problem task.now) w.0) }
    ensures estimator { IfOk result (λ w. Estimating (problem task.now) w.1) }
{
    let own = task.twin(heap)?;
    let queue: HeapQueue<Figure> = HeapQueue::new(heap, own.item_count())?;
    let (session, answers) = Session::open_and_work(heap, own, MaxRule, queue, calls).map_err(
        wanting,
    )?;
    let max = told_figure(answers.as_slice());
    let estimator = SessionEstimator::new(heap, session).map_err(|_| AllocError)?;
    Ok((max, Keeping::new(Larger::new(estimator, Blind))))
}
