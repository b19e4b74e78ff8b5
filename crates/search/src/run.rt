// The turns of a search.
ghost use Rattle.std.specs.Prelude.{◌≡◌, ◌<◌, ◌≤◌, length};
ghost use Rattle.strips.specs.Tasks.{problem};
ghost use Rattle.search_theory.specs.Rows.{Told, Thrifty};
ghost use Rattle.search_law.specs.Views.{view};
ghost use Rattle.search_law.specs.Refusals.{memory};
ghost use Rattle.search_law.specs.Boards.{Standing, Started, Ran};
ghost use Rattle.search.specs.Loans.{held, start, Leaving};

use crate::board::{Board, NoRoom};
use crate::queueing::enqueue;
use crate::trace::{depth, trace};
use estimator::estimator::Estimator;
use queue::key::Pair;
use queue::queue::Queue;
use rows::row::Row;
use search_law::outcome::Outcome;
use strips::state::State;

impl<E: Estimator, Q: Queue<Key = Pair>> Board<'_, '_, E, Q> {
    // Records the start state in the first row.
    pub(crate) fn begin(&mut self, state: &State)
        requires some { 0 < length self.old.rows.now }
        requires space { length self.old.rows.now ≤ length (Q.Queue.pairs self.old.queue.now) }
        ensures leaves { Leaving E.Estimator.suits E.Estimator.value E.Estimator.agrees Q.Queue.sound self.old self.new }
        ensures used { self.new.used ≡ 1 }
        ensures after { Started (E.Estimator.value self.old.est.now) (E.Estimator.agrees self.old.est.now) state.now self.old.rows.now self.new.rows.now (Q.Queue.pairs self.old.queue.now) (Q.Queue.pairs self.new.queue.now) }
    {
        let estimate = self.est.estimate(state);
        self.rows[0] = Row::new(*state, 0, estimate, 0, 0);
        enqueue(self.queue, 0, 0, estimate);
        self.used = 1;
    }

    // Takes rows from the queue and opens them, up to an ending.
    pub(crate) fn run(&mut self, steps: &mut [u16]) -> Outcome
        requires used { self.old.used ≡ 1 }
        requires stands { Standing (problem self.old.task.now) (start self.old) (held Q.Queue.pairs self.old) }
        requires fits { E.Estimator.suits self.old.est.now (problem self.old.task.now) }
        requires thrifty { Thrifty (problem self.old.task.now) (start self.old) (view self.old.rows.now self.old.used) }
        requires room { length self.old.rows.now ≤ length steps.old }
        ensures ran { Ran (problem self.old.task.now) (start self.old) (E.Estimator.value self.old.est.now) (E.Estimator.agrees self.old.est.now × Told (E.Estimator.value self.old.est.now) (view self.old.rows.now self.old.used)) (Q.Queue.sound self.old.queue.now) (memory self.old.rows.now steps.old (Q.Queue.pairs self.old.queue.now)) (memory self.new.rows.now steps.new (Q.Queue.pairs self.new.queue.now)) result }
        ensures leaves { Leaving E.Estimator.suits E.Estimator.value E.Estimator.agrees Q.Queue.sound self.old self.new }
    {
        while let Some((i, _)) = self.queue.take() {
            let rows = &mut *self.rows;
            let used = self.used;
            let state = rows[i].state;
            if self.task.has_goal(&state) {
                let length = depth(rows, used, i);
                trace(rows, used, i, length, steps);
                return Outcome::Plan { length, used };
            }
            rows[i].opened = true;
            match self.open(i) {
                Ok(()) => {}
                Err(NoRoom) => return Outcome::RowsFull { used: self.used },
            }
        }
        Outcome::NoPlan { used: self.used }
    }
}
