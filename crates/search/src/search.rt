// The search.
ghost use Rattle.std.specs.Prelude.{◌≡◌, MatchResult, OnErr};
ghost use Rattle.strips.specs.Standing.{standing};
ghost use Rattle.strips.specs.Tasks.{problem};
ghost use Rattle.estimator.specs.Meanings.{Leaves};
ghost use Rattle.search_law.specs.Refusals.{memory, Accepted, Refused};
ghost use Rattle.search_law.specs.Law.{Searched};

use crate::board::Board;
use crate::queueing::empty;
use estimator::estimator::Estimator;
use queue::key::Pair;
use queue::queue::Queue;
use rows::row::Row;
use search_law::outcome::Outcome;
use search_law::refusal::SearchRefusal;
use strips::state::State;
use strips::task::Task;

// Whether anything is in the way of a search: of several refusals the one of the smallest number.
fn accept<E: Estimator, Q: Queue<Key = Pair>>(
    task: &Task,
    start: &State,
    est: &E,
    queue: &Q,
    rows: &[Row],
    steps: &[u16],
) -> Result<(), SearchRefusal>
    ensures { MatchResult result (λ _. Accepted (problem task.now) (standing start.now) (E.Estimator.suits est.now (problem task.now)) (memory rows.now steps.now (Q.Queue.pairs queue.now))) (Refused (problem task.now) (standing start.now) (E.Estimator.suits est.now (problem task.now)) (memory rows.now steps.now (Q.Queue.pairs queue.now))) }
{
    if let Some(fact) = start.first_from(task.facts()) {
        return Err(SearchRefusal::StateBeyond { fact });
    }
    if !queue.is_empty() || queue.capacity() < rows.len() {
        return Err(SearchRefusal::QueueUnfit);
    }
    if rows.is_empty() || rows.len() > 65535 || steps.len() < rows.len() {
        return Err(SearchRefusal::RowsUnfit);
    }
    if !est.fits(task) {
        return Err(SearchRefusal::EstimatorUnfit);
    }
    Ok(())
}

// Looks for a shortest plan from the start state. It ends over any estimator and any queue; what it finds is a plan whatever they do,
// a shortest one, or none where there is none, if the estimator agrees and the queue is sound. No memory is got.
pub fn search<E: Estimator, Q: Queue<Key = Pair>>(
    task: &Task,
    start: &State,
    est: &mut E,
    queue: &mut Q,
    rows: &mut [Row],
    steps: &mut [u16],
) -> Result<Outcome, SearchRefusal>
    ensures law { Searched (problem task.now) (standing start.now) (E.Estimator.value est.old) (E.Estimator.suits est.old (problem task.now)) (E.Estimator.agrees est.old) (Q.Queue.sound queue.old) (memory rows.old steps.old (Q.Queue.pairs queue.old)) (memory rows.new steps.new (Q.Queue.pairs queue.new)) result }
    ensures untouched { OnErr result ((est.new ≡ est.old) × (queue.new ≡ queue.old)) }
    ensures leaves { Leaves E.Estimator.suits E.Estimator.value E.Estimator.agrees est.old est.new }
    ensures keeps { Q.Queue.sound queue.old → Q.Queue.sound queue.new }
{
    accept(task, start, est, queue, rows, steps)?;
    let mut board = Board {
        task,
        est,
        queue,
        rows,
        used: 0,
    };
    board.begin(start);
    let outcome = board.run(steps);
    empty(board.queue);
    Ok(outcome)
}
