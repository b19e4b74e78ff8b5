// Opening a row: each of its successors is recorded.
ghost use Rattle.std.specs.Prelude.{◌≡◌, ℕ, ◌+◌, ◌<◌, ◌≤◌, length, MatchResult, slice_index_or};
ghost use Rattle.strips.specs.Tasks.{problem};
ghost use Rattle.rows.specs.Rows.{blank};
ghost use Rattle.search_law.specs.Boards.{Turning, Standing, Overfull, Moves, Shortened, Added};
ghost use Rattle.search.specs.Loans.{held, start, Leaving};

use crate::board::{Board, NoRoom, Origin};
use crate::queueing::enqueue;
use estimator::estimator::Estimator;
use queue::key::Pair;
use queue::queue::Queue;
use rows::lookup::{find, hang};
use rows::row::Row;
use rows::seat::Seat;
use strips::state::State;

impl<E: Estimator, Q: Queue<Key = Pair>> Board<'_, '_, E, Q> {
    // A shorter way to row `at` replaces a longer one and queues the row.
    fn shorten(&mut self, origin: Origin, at: usize)
        requires rows { (origin.row < length self.old.rows.now) × (at < length self.old.rows.now) }
        requires space { length self.old.rows.now ≤ length (Q.Queue.pairs self.old.queue.now) }
        requires small { (slice_index_or self.old.rows.now origin.row blank).steps < 65535 }
        ensures leaves { Leaving E.Estimator.suits E.Estimator.value E.Estimator.agrees Q.Queue.sound self.old self.new }
        ensures used { self.new.used ≡ self.old.used }
        ensures est { self.new.est.now ≡ self.old.est.now }
        ensures after { Shortened self.old.rows.now (Q.Queue.pairs self.old.queue.now) origin.row origin.action at self.new.rows.now (Q.Queue.pairs self.new.queue.now) }
    {
        let rows = &mut *self.rows;
        let steps = rows[origin.row as usize].steps + 1;
        let mut row = rows[at];
        if steps < row.steps {
            row.steps = steps;
            row.from = origin.row;
            row.action = origin.action;
            rows[at] = row;
            enqueue(self.queue, at, steps, row.estimate);
        }
    }

    // Records a new state in the next row, and queues it.
    fn add(&mut self, origin: Origin, under: usize, next: &State)
        requires rows { (origin.row < length self.old.rows.now) × (self.old.used < length self.old.rows.now) }
        requires space { length self.old.rows.now ≤ length (Q.Queue.pairs self.old.queue.now) }
        requires small { (slice_index_or self.old.rows.now origin.row blank).steps < 65535 }
        ensures leaves { Leaving E.Estimator.suits E.Estimator.value E.Estimator.agrees Q.Queue.sound self.old self.new }
        ensures used { self.new.used ≡ self.old.used + 1 }
        ensures after { Added (E.Estimator.value self.old.est.now) (E.Estimator.agrees self.old.est.now) origin.row origin.action under self.old.used next.now self.old.rows.now self.new.rows.now (Q.Queue.pairs self.old.queue.now) (Q.Queue.pairs self.new.queue.now) }
    {
        let rows = &mut *self.rows;
        let number = self.used;
        let steps = rows[origin.row as usize].steps + 1;
        let estimate = self.est.estimate(next);
        let row = Row::new(*next, steps, estimate, origin.row, origin.action);
        hang(rows, under, number, row);
        enqueue(self.queue, number, steps, estimate);
        self.used = number + 1;
    }

    // Records the successor of row i by an action, if it may be taken and there is room.
    fn successor(&mut self, i: usize, action: usize) -> Result<(), NoRoom>
        requires turn { Turning (problem self.old.task.now) (start self.old) (held Q.Queue.pairs self.old) i action }
        requires few { action < 65536 }
        ensures turn { MatchResult result (λ _. Turning (problem self.old.task.now) (start self.old) (held Q.Queue.pairs self.new) i (action + 1)) (λ _. Overfull (problem self.old.task.now) (start self.old) (held Q.Queue.pairs self.new) i action) }
        ensures moves { Moves (problem self.old.task.now) (start self.old) (E.Estimator.value self.old.est.now) (E.Estimator.agrees self.old.est.now) (held Q.Queue.pairs self.old) (held Q.Queue.pairs self.new) }
        ensures leaves { Leaving E.Estimator.suits E.Estimator.value E.Estimator.agrees Q.Queue.sound self.old self.new }
    {
        let rows = &mut *self.rows;
        let state = rows[i].state;
        if !self.task.may(action, &state) {
            return Ok(());
        }
        let next = self.task.after(action, &state);
        let origin = Origin {
            row: i as u16,
            action: action as u16,
        };
        let full = self.used == rows.len();
        match find(rows, &next) {
            Seat::Found(at) => {
                self.shorten(origin, at);
                Ok(())
            }
            Seat::Under(_) if full => Err(NoRoom),
            Seat::Under(under) => {
                self.add(origin, under, &next);
                Ok(())
            }
        }
    }

    // Records each successor of row i, while there is room.
    pub(crate) fn open(&mut self, i: usize) -> Result<(), NoRoom>
        requires turn { Turning (problem self.old.task.now) (start self.old) (held Q.Queue.pairs self.old) i 0 }
        ensures turn { MatchResult result (λ _. Standing (problem self.old.task.now) (start self.old) (held Q.Queue.pairs self.new)) (λ _. (a : ℕ) × Overfull (problem self.old.task.now) (start self.old) (held Q.Queue.pairs self.new) i a) }
        ensures moves { Moves (problem self.old.task.now) (start self.old) (E.Estimator.value self.old.est.now) (E.Estimator.agrees self.old.est.now) (held Q.Queue.pairs self.old) (held Q.Queue.pairs self.new) }
        ensures leaves { Leaving E.Estimator.suits E.Estimator.value E.Estimator.agrees Q.Queue.sound self.old self.new }
    {
        for action in 0..self.task.action_count() {
            self.successor(i, action)?;
        }
        Ok(())
    }
}
