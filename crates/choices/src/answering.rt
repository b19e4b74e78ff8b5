// Calls worked on a session of a rule and a queue that were chosen.
ghost use Rattle.std.specs.Prelude.{map, IfOk};
ghost use Rattle.model.specs.Runs.{fresh, Rights};
ghost use Rattle.strips.specs.Tasks.{problem};
ghost use Rattle.session.specs.Works.{call_of, reply_of};
ghost use Rattle.choices.specs.Rules.{rule_of};

use crate::choice::{QueueChoice, RuleChoice};
use figure::figure::Figure;
use heap::heap::HeapQueue;
use queue::queue::Queue;
use queue::table::TableQueue;
use rules::additive::AdditiveRule;
use rules::largest::MaxRule;
use rules::rule::CostRule;
use session::call::{Answer, Call};
use session::session::Session;
use std::alloc::{AllocError, Global};
use strips::task::Task;

// A new queue with room for every item is never refused, so only memory can be wanting.
fn answer_by<R: CostRule + Drop, Q: Queue<Key = Figure> + Drop>(
    heap: Global,
    task: Task,
    rule: R,
    calls: &[Call],
) -> Result<Vec<Answer>, AllocError>
    ensures { IfOk result (λ v. Rights (problem task) (R.CostRule.rule rule) (fresh (problem task)) (map call_of calls.now) (map reply_of v.items)) }
{
    let queue = Q::new(heap, task.item_count())?;
    let (_, answers) = Session::open_and_work(heap, task, rule, queue, calls).map_err(
        |_| AllocError,
    )?;
    Ok(answers)
}

// Opens a session on the task and works the calls.
pub fn answer(
    heap: Global,
    task: Task,
    rule: RuleChoice,
    queue: QueueChoice,
    calls: &[Call],
) -> Result<Vec<Answer>, AllocError>
    ensures { IfOk result (λ v. Rights (problem task) (rule_of rule) (fresh (problem task)) (map call_of calls.now) (map reply_of v.items)) }
{
    // A match, since each choice is another type: neither rules nor queues are values behind a dyn.
    match (rule, queue) {
        (RuleChoice::Additive, QueueChoice::Heap) => answer_by::<AdditiveRule, HeapQueue<Figure>>(
            heap,
            task,
            AdditiveRule,
            calls,
        ),
        (RuleChoice::Additive, QueueChoice::Table) => answer_by::<AdditiveRule, TableQueue<Figure>>(
            heap,
            task,
            AdditiveRule,
            calls,
        ),
        (RuleChoice::Max, QueueChoice::Heap) => answer_by::<MaxRule, HeapQueue<Figure>>(
            heap, task, MaxRule, calls,
        ),
        (RuleChoice::Max, QueueChoice::Table) => answer_by::<MaxRule, TableQueue<Figure>>(
            heap, task, MaxRule, calls,
        ),
    }
}
