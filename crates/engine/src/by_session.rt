// A search by the very session that was worked.
ghost use Rattle.std.specs.Prelude.{map, IfOk, IfErr};
ghost use Rattle.model.specs.Figures.{max_rule};
ghost use Rattle.strips.specs.Standing.{standing};
ghost use Rattle.strips.specs.Tasks.{problem};
ghost use Rattle.session.specs.Works.{call_of, reply_of};
ghost use Rattle.search_law.specs.Refusals.{memory};
ghost use Rattle.engine.specs.Halts.{Halting};
ghost use Rattle.engine.specs.Whole.{OwnLaw};

use crate::halted::Halted;
use crate::worked::Worked;
use figure::figure::Figure;
use queue::key::Pair;
use queue::queue::Queue;
use rows::row::Row;
use rules::largest::MaxRule;
use search::search::search;
use session::call::Call;
use session::session::Session;
use session_estimator::session_estimator::SessionEstimator;
use std::alloc::Global;
use strips::state::State;
use strips::task::Task;

// Opens a session under the max rule and works the calls; then searches a plan of its task, with that session as the estimator.
pub fn work_and_search_by_session<Q: Queue<Key = Figure>, P: Queue<Key = Pair>>(
    heap: Global,
    task: Task,
    queue: Q,
    calls: &[Call],
    start: &State,
    frontier: &mut P,
    rows: &mut [Row],
    steps: &mut [u16],
) -> Result<Worked<MaxRule, Q>, Halted<Q>>
    ensures law { IfOk result (λ w. OwnLaw (problem task) max_rule (map call_of calls.now) (map reply_of w.answers.items) (standing start.now) (Q.Queue.sound queue) (P.Queue.sound frontier.old) (memory rows.old steps.old (P.Queue.pairs frontier.old)) (memory rows.new steps.new (P.Queue.pairs frontier.new)) w.outcome) }
    ensures halted { IfErr result (Halting Q.Queue.sound Q.Queue.pairs task queue (map call_of calls.now)) }
{
    let (session, answers) = Session::open_and_work(heap, task, MaxRule, queue, calls).map_err(
        Halted::Unopened,
    )?;
    let Ok(twin) = session.task().twin(heap) else {
        return Err(Halted::NoMemory(session, answers));
    };
    let mut est = match SessionEstimator::new(heap, session) {
        Ok(est) => est,
        Err(session) => return Err(Halted::NoMemory(session, answers)),
    };
    let outcome = search(&twin, start, &mut est, frontier, rows, steps);
    Ok(Worked {
        session: est.into_session(),
        answers,
        outcome,
    })
}
