// Opening and closing sessions.
ghost use Rattle.std.specs.Prelude.{◌≡◌, IfOk, MatchResult};
ghost use Rattle.model.specs.Runs.{fresh};
ghost use Rattle.strips.specs.Tasks.{problem};
ghost use Rattle.session.specs.Openings.{ready, Why, Indexed, Opened, Refusing};
ghost use Rattle.session.specs.Laws.{Led};

use crate::fault::SessionFault;
use crate::session::Session;
use crate::unopened::Unopened;
use figure::figure::Figure;
use links::links::Links;
use queue::queue::Queue;
use rules::rule::CostRule;
use settling::base::Base;
use settling::held::HeldFigures;
use std::alloc::Global;
use strips::task::Task;

// Whether the queue is empty, with room for every item.
pub(crate) fn is_ready<Q: Queue<Key = Figure>>(task: &Task, queue: &Q) -> bool
    ensures { result ≡ ready (problem task.now) (Q.Queue.pairs queue.now) }
{
    if queue.is_empty() {
        task.item_count() <= queue.capacity()
    } else {
        false
    }
}

// The indexes of a session's task, or why there can be no session on this queue.
fn indexes<Q: Queue<Key = Figure>>(
    heap: Global,
    task: &Task,
    queue: &Q,
) -> Result<Links, SessionFault>
    ensures { MatchResult result (Indexed (problem task.now) (Q.Queue.pairs queue.now)) (Why (ready (problem task.now) (Q.Queue.pairs queue.now))) }
{
    if !is_ready(task, queue) {
        return Err(SessionFault::QueueUnfit);
    }
    Links::of(heap, task).map_err(|_| SessionFault::Memory)
}

impl<R: CostRule, Q: Queue<Key = Figure>> Session<R, Q> {
    // Opens a session, unsettled, with the start facts standing and every figure none. Only this call needs memory.
    pub fn open(
        heap: Global,
        task: Task,
        rule: R,
        queue: Q,
    ) -> Result<Session<R, Q>, Unopened<R, Q>>
        ensures opens { MatchResult result (Opened Q.Queue.pairs task rule queue) (Refusing Q.Queue.pairs task rule queue) }
        ensures led { Q.Queue.sound queue → IfOk result (Led R.CostRule.rule Q.Queue.sound Q.Queue.pairs (fresh (problem task))) }
    {
        match indexes(heap, &task, &queue) {
            Ok(links) => Session::begin(heap, Base { task, rule, links }, queue),
            Err(fault) => Err(Unopened {
                fault,
                task,
                rule,
                queue,
            }),
        }
    }

    // Opens a session on a task with its indexes.
    fn begin(heap: Global, base: Base<R>, queue: Q) -> Result<Session<R, Q>, Unopened<R, Q>>
        requires { Indexed (problem base.task) (Q.Queue.pairs queue) base.links }
        ensures opens { MatchResult result (Opened Q.Queue.pairs base.task base.rule queue) (Refusing Q.Queue.pairs base.task base.rule queue) }
        ensures led { Q.Queue.sound queue → IfOk result (Led R.CostRule.rule Q.Queue.sound Q.Queue.pairs (fresh (problem base.task))) }
    {
        let state = base.task.start_state();
        match HeldFigures::begin(heap, &base, &state, queue) {
            Ok(held) => Ok(Session {
                base,
                state,
                held,
                settled: false,
            }),
            Err(queue) => {
                let Base {
                    task,
                    rule,
                    links: _,
                } = base;
                Err(Unopened {
                    fault: SessionFault::Memory,
                    task,
                    rule,
                    queue,
                })
            }
        }
    }

    // Ends the session, and gives back what it was opened on.
    pub fn close(self) -> (Task, R, Q)
        ensures { result ≡ (self.base.task, self.base.rule, self.held.queue) }
    {
        let Session {
            base,
            state: _,
            held,
            settled: _,
        } = self;
        let Base {
            task,
            rule,
            links: _,
        } = base;
        (task, rule, held.into_queue())
    }
}
