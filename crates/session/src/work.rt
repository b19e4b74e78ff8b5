// Lists of calls, worked in turn.
ghost use Rattle.std.specs.Prelude.{◌≡◌, ℕ, ◌+◌, ◌*◌, map, IfOk, vec_len, MatchResult};
ghost use Rattle.model.specs.Strips.{items};
ghost use Rattle.model.specs.Runs.{fresh, ended, Rights};
ghost use Rattle.model.specs.Runs.Call.{settle as to_settle};
ghost use Rattle.strips.specs.Tasks.{problem};
ghost use Rattle.session.specs.Sessions.{task_of, Sound};
ghost use Rattle.session.specs.Laws.{Led, Goes};
ghost use Rattle.session.specs.Openings.{ready, Why, Refusing};
ghost use Rattle.session.specs.Rooms.{weight, Stocked, Roomy, Prepared};
ghost use Rattle.session.specs.Works.{call_of, reply_of, On, Working};

use crate::call::{Answer, Call};
use crate::calls::rows_needed;
use crate::fault::SessionFault;
use crate::open::is_ready;
use crate::room::{Room, reserve};
use crate::session::Session;
use crate::unopened::Unopened;
use figure::figure::Figure;
use queue::queue::Queue;
use rules::rule::CostRule;
use settling::row::DocketRow;
use std::alloc::{AllocError, Global};
use strips::task::Task;

// Room for the calls of a session on this task, or why there can be no session on this queue.
fn room_for<Q: Queue<Key = Figure>>(
    heap: Global,
    task: &Task,
    queue: &Q,
    calls: &[Call],
) -> Result<Room, SessionFault>
    ensures { MatchResult result (Prepared (problem task.now) (Q.Queue.pairs queue.now) calls.now) (Why (ready (problem task.now) (Q.Queue.pairs queue.now))) }
{
    if !is_ready(task, queue) {
        return Err(SessionFault::QueueUnfit);
    }
    reserve(heap, rows_needed(task), calls).map_err(|_| SessionFault::Memory)
}

impl<R: CostRule, Q: Queue<Key = Figure>> Session<R, Q> {
    // Settles as if on so many rows; of the docket no more than two rows for each item are ever written.
    fn settle_on(&mut self, mut docket: Vec<DocketRow>, rows: usize) -> Answer
        ensures base { self.new.base ≡ self.old.base }
        ensures keeps { Sound R.CostRule.rule Q.Queue.sound Q.Queue.pairs self.old → Sound R.CostRule.rule Q.Queue.sound Q.Queue.pairs self.new }
        ensures law { vec_len docket ≡ 2 * items (task_of self.old) → Goes R.CostRule.rule Q.Queue.sound Q.Queue.pairs self.old (to_settle rows) (reply_of result) self.new }
    {
        docket.truncate(rows);
        match self.settle(&mut docket) {
            Ok(n) => {
                docket.truncate(n);
                Answer::Wrote(docket)
            }
            Err(fault) => Answer::Refused(fault),
        }
    }

    // Works one call; a settle takes one of the dockets.
    fn ask(&mut self, call: Call, dockets: &mut Vec<Vec<DocketRow>>) -> Answer
        ensures base { self.new.base ≡ self.old.base }
        ensures keeps { Sound R.CostRule.rule Q.Queue.sound Q.Queue.pairs self.old → Sound R.CostRule.rule Q.Queue.sound Q.Queue.pairs self.new }
        ensures law { (n : ℕ) → Stocked (weight call + n) (2 * items (task_of self.old)) dockets.old.items → Goes R.CostRule.rule Q.Queue.sound Q.Queue.pairs self.old (call_of call) (reply_of result) self.new × Stocked n (2 * items (task_of self.old)) dockets.new.items }
    {
        match call {
            Call::Enter(fact) => self.enter(fact).map_or_else(Answer::Refused, Answer::Told),
            Call::Strike(fact) => self.strike(fact).map_or_else(Answer::Refused, Answer::Told),
            Call::Settle(rows) => match dockets.pop() {
                Some(docket) => self.settle_on(docket, rows),
                None => Answer::Refused(SessionFault::DocketShort),
            },
            Call::Figure(item) => self.figure(item).map_or_else(Answer::Refused, Answer::Is),
            Call::Goal => self.goal_figure().map_or_else(Answer::Refused, Answer::Is),
        }
    }

    // Works the calls in the room made for them.
    fn run(&mut self, room: Room, calls: &[Call]) -> Vec<Answer>
        requires { Roomy (2 * items (task_of self.old)) calls.now room }
        ensures base { self.new.base ≡ self.old.base }
        ensures keeps { Sound R.CostRule.rule Q.Queue.sound Q.Queue.pairs self.old → Sound R.CostRule.rule Q.Queue.sound Q.Queue.pairs self.new }
        ensures law { Working R.CostRule.rule Q.Queue.sound Q.Queue.pairs self.old calls.now result.items self.new }
    {
        let Room {
            mut answers,
            mut dockets,
        } = room;
        for call in calls {
            let one = self.ask(*call, &mut dockets);
            answers.push_reserved(one);
        }
        answers
    }

    // Works a list of calls: every answer is right for the calls before it. Where memory is wanting no call is worked.
    pub fn work(&mut self, heap: Global, calls: &[Call]) -> Result<Vec<Answer>, AllocError>
        ensures refused { MatchResult result (λ _. self.new.base ≡ self.old.base) (λ _. self.new ≡ self.old) }
        ensures keeps { Sound R.CostRule.rule Q.Queue.sound Q.Queue.pairs self.old → Sound R.CostRule.rule Q.Queue.sound Q.Queue.pairs self.new }
        ensures law { IfOk result (λ v. Working R.CostRule.rule Q.Queue.sound Q.Queue.pairs self.old calls.now v.items self.new) }
    {
        let room = reserve(heap, rows_needed(&self.base.task), calls)?;
        Ok(self.run(room, calls))
    }

    // Opens a session and works a list of calls: every answer is right for the calls before it.
    pub fn open_and_work(
        heap: Global,
        task: Task,
        rule: R,
        queue: Q,
        calls: &[Call],
    ) -> Result<(Session<R, Q>, Vec<Answer>), Unopened<R, Q>>
        ensures opens { MatchResult result (λ w. On Q.Queue.pairs task rule queue w.0) (Refusing Q.Queue.pairs task rule queue) }
        ensures law { Q.Queue.sound queue → IfOk result (λ w. Rights (problem task) (R.CostRule.rule rule) (fresh (problem task)) (map call_of calls.now) (map reply_of w.1.items)) }
        ensures led { Q.Queue.sound queue → IfOk result (λ w. Led R.CostRule.rule Q.Queue.sound Q.Queue.pairs (ended (problem task) (fresh (problem task)) (map call_of calls.now)) w.0) }
    {
        let room = match room_for(heap, &task, &queue, calls) {
            Ok(room) => room,
            Err(fault) => {
                return Err(Unopened {
                    fault,
                    task,
                    rule,
                    queue,
                });
            }
        };
        let mut session = Session::open(heap, task, rule, queue)?;
        let answers = session.run(room, calls);
        Ok((session, answers))
    }
}
