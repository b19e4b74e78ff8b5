// A session worked through a list of calls, and then a search.
ghost use Rattle.std.specs.Prelude.{◌≡◌, map, IfOk, MatchResult, OnErr, OnOk};
ghost use Rattle.model.specs.Runs.{ended, fresh};
ghost use Rattle.strips.specs.Standing.{standing};
ghost use Rattle.strips.specs.Tasks.{problem};
ghost use Rattle.session.specs.Laws.{Led};
ghost use Rattle.session.specs.Openings.{Refusing};
ghost use Rattle.session.specs.Works.{call_of, reply_of};
ghost use Rattle.estimator.specs.Meanings.{Leaves};
ghost use Rattle.search_law.specs.Refusals.{memory};
ghost use Rattle.engine.specs.Whole.{WholeLaw};

use crate::worked::Worked;
use estimator::estimator::Estimator;
use figure::figure::Figure;
use queue::key::Pair;
use queue::queue::Queue;
use rows::row::Row;
use rules::rule::CostRule;
use search::search::search;
use session::call::Call;
use session::session::Session;
use session::unopened::Unopened;
use std::alloc::Global;
use strips::state::State;
use strips::task::Task;

// Opens a session on a task, a rule and a queue and works the calls; then searches a plan of the sought task from the start state.
// An opening that is refused, or wants memory, gives all back, and nothing is searched.
// The loans stand apart, since the contract says of each what it holds afterwards, which it could not of a struct that takes them.
pub fn work_and_search<R: CostRule, Q: Queue<Key = Figure>, E: Estimator, P: Queue<Key = Pair>>(
    heap: Global,
    task: Task,
    rule: R,
    queue: Q,
    calls: &[Call],
    sought: &Task,
    start: &State,
    est: &mut E,
    frontier: &mut P,
    rows: &mut [Row],
    steps: &mut [u16],
) -> Result<Worked<R, Q>, Unopened<R, Q>>
    ensures law { MatchResult result (λ w. WholeLaw (problem task) (R.CostRule.rule rule) (map call_of calls.now) (map reply_of w.answers.items) (problem sought.now) (standing start.now) (E.Estimator.value est.old) (E.Estimator.suits est.old (problem sought.now)) (E.Estimator.agrees est.old) (Q.Queue.sound queue) (P.Queue.sound frontier.old) (memory rows.old steps.old (P.Queue.pairs frontier.old)) (memory rows.new steps.new (P.Queue.pairs frontier.new)) w.outcome) (Refusing Q.Queue.pairs task rule queue) }
    ensures led { Q.Queue.sound queue → IfOk result (λ w. Led R.CostRule.rule Q.Queue.sound Q.Queue.pairs (ended (problem task) (fresh (problem task)) (map call_of calls.now)) w.session) }
    ensures estimator { OnOk result (Leaves E.Estimator.suits E.Estimator.value E.Estimator.agrees est.old est.new) }
    ensures untouched { OnErr result ((est.new ≡ est.old) × (frontier.new ≡ frontier.old) × (rows.new ≡ rows.old) × (steps.new ≡ steps.old)) }
{
    let (session, answers) = Session::open_and_work(heap, task, rule, queue, calls)?;
    let outcome = search(sought, start, est, frontier, rows, steps);
    Ok(Worked {
        session,
        answers,
        outcome,
    })
}
