// A search over an estimator and queues that were chosen.
ghost use Rattle.std.specs.Prelude.{◌≡◌, IfOk};
ghost use Rattle.model.specs.Figures.{max_rule};
ghost use Rattle.strips.specs.Standing.{standing};
ghost use Rattle.strips.specs.Tasks.{problem};
ghost use Rattle.session.specs.Sessions.{task_of, Sound};
ghost use Rattle.choices.specs.Finding.{Finds};
ghost use Rattle.choices.specs.Queries.{FindsFor};

use crate::choice::{EstimatorChoice, QueueChoice};
use crate::found::Found;
use crate::query::Query;
use estimator::blind::Blind;
use estimator::estimator::Estimator;
use estimator::keeping::Keeping;
use estimator::larger::Larger;
use figure::figure::Figure;
use heap::heap::HeapQueue;
use queue::key::Pair;
use queue::queue::Queue;
use queue::table::TableQueue;
use rows::row::Row;
use rules::largest::MaxRule;
use search::search::search;
use session::session::Session;
use session_estimator::session_estimator::SessionEstimator;
use std::alloc::{AllocError, Global};
use strips::state::State;
use strips::task::Task;

// A session of its own on the task, under the max rule, as an estimator.
fn session_on<F: Queue<Key = Figure> + Drop>(
    heap: Global,
    task: &Task,
) -> Result<SessionEstimator<F>, AllocError>
    ensures { IfOk result (λ e. (problem task.now ≡ task_of e.session) × Sound (λ _. max_rule) F.Queue.sound F.Queue.pairs e.session) }
{
    let own = task.twin(heap)?;
    let queue = F::new(heap, own.item_count())?;
    let session = Session::open(heap, own, MaxRule, queue).map_err(|_| AllocError)?;
    SessionEstimator::new(heap, session).map_err(|_| AllocError)
}

impl Query<'_> {
    // Searches by the estimator. More rows than a search takes are not got, as it refuses them.
    fn find_by<P: Queue<Key = Pair> + Drop, E: Estimator>(
        &self,
        heap: Global,
        est: &mut E,
    ) -> Result<Found, AllocError>
        ensures { IfOk result (λ f. E.Estimator.agrees est.old → E.Estimator.suits est.old (problem self.now.task.now) → FindsFor self.now f) }
    {
        let lent = self.rows.min(65536);
        let mut frontier = P::new(heap, lent)?;
        let mut records = vec![in heap; Row::unused(); lent]?;
        let mut steps = vec![in heap; 0u16; lent]?;
        let result = search(
            self.task,
            self.start,
            est,
            &mut frontier,
            &mut records,
            &mut steps,
        );
        Ok(Found { result, steps })
    }

    // Searches by an estimator, over queues of one kind.
    fn find_over<F: Queue<Key = Figure> + Drop, P: Queue<Key = Pair> + Drop>(
        &self,
        heap: Global,
        estimate: EstimatorChoice,
    ) -> Result<Found, AllocError>
        ensures { IfOk result (FindsFor self.now) }
    {
        // A match, since each choice is another type.
        match estimate {
            EstimatorChoice::Blind => self.find_by::<P, Blind>(heap, &mut Blind),
            EstimatorChoice::Session => {
                let mut est = session_on::<F>(heap, self.task)?;
                self.find_by::<P, SessionEstimator<F>>(heap, &mut est)
            }
            EstimatorChoice::Keeping => {
                let mut est = Keeping::new(Larger::new(session_on::<F>(heap, self.task)?, Blind));
                self.find_by::<P, Keeping<Larger<SessionEstimator<F>, Blind>>>(heap, &mut est)
            }
        }
    }
}

// Searches a plan of the task from the state.
pub fn find(
    heap: Global,
    task: &Task,
    start: &State,
    rows: usize,
    estimate: EstimatorChoice,
    queue: QueueChoice,
) -> Result<Found, AllocError>
    ensures { IfOk result (λ f. Finds (problem task.now) (standing start.now) rows f.steps.items f.result) }
{
    let query = Query { task, start, rows };
    match queue {
        QueueChoice::Heap => query.find_over::<HeapQueue<Figure>, HeapQueue<Pair>>(heap, estimate),
        QueueChoice::Table => {
            query.find_over::<TableQueue<Figure>, TableQueue<Pair>>(heap, estimate)
        }
    }
}
