// Making right-hand sides right, and settling turn by turn.
ghost use Rattle.std.specs.Prelude.{◌≡◌, ℕ, ◌<◌, ◌≤◌, length, drop, vec_len, slice_set};
ghost use Rattle.model.specs.Strips.{names, struck};
ghost use Rattle.session_theory.specs.Kept.{due};
ghost use Rattle.settling.specs.Holding.{Refreshes, Refreshed, Turned, Settled};

use crate::base::Base;
use crate::held::HeldFigures;
use crate::row::DocketRow;
use crate::sides::{moved_from, side_of};
use figure::figure::Figure;
use queue::queue::Queue;
use rules::rule::CostRule;
use strips::state::State;

// Queues an item under the smaller of its two figures if they differ, and else takes it out.
fn adjust<Q: Queue<Key = Figure>>(queue: &mut Q, item: usize, held: Figure, side: Figure)
    ensures keeps { Q.Queue.sound queue.old → Q.Queue.sound queue.new }
    ensures after { item < length (Q.Queue.pairs queue.old) → Q.Queue.pairs queue.new ≡ slice_set (Q.Queue.pairs queue.old) item (due held side) }
{
    if held == side {
        let _ = queue.drop_item(item);
    } else {
        let _ = queue.put(item, held.min(side));
    }
}

impl<Q: Queue<Key = Figure>> HeldFigures<Q> {
    // Makes the right-hand side of an item right, and its place in the queue. What is no item is left alone.
    pub fn refresh<R: CostRule>(&mut self, base: &Base<R>, state: &State, item: usize)
        ensures keeps { Q.Queue.sound self.old.queue → Q.Queue.sound self.new.queue }
        ensures held { self.new.figures ≡ self.old.figures }
        ensures after { Refreshed R.CostRule.rule Q.Queue.pairs base.now state.now self.old self.new item }
    {
        if item < self.figures.len() {
            let side = side_of(base, state, &self.figures, item);
            self.sides[item] = side;
            adjust(&mut self.queue, item, self.figures[item], side);
        }
    }

    // Makes the right-hand sides of the listed items right.
    fn refresh_all<R: CostRule>(&mut self, base: &Base<R>, state: &State, items: &[usize])
        ensures keeps { Q.Queue.sound self.old.queue → Q.Queue.sound self.new.queue }
        ensures held { self.new.figures ≡ self.old.figures }
        ensures after { Refreshes R.CostRule.rule Q.Queue.pairs base.now state.now self.old self.new (names items.now) }
    {
        for item in items {
            self.refresh(base, state, *item);
        }
    }

    // Takes an item of the least key, gives it its next figure, and makes what reads it right again.
    fn turn<R: CostRule>(&mut self, base: &Base<R>, state: &State) -> Option<DocketRow>
        ensures keeps { Q.Queue.sound self.old.queue → Q.Queue.sound self.new.queue }
        ensures long { vec_len self.new.figures ≡ vec_len self.old.figures }
        ensures after { Q.Queue.sound self.old.queue → Turned R.CostRule.rule Q.Queue.pairs base.now state.now self.old self.new result }
    {
        let (item, _) = self.queue.take()?;
        if item >= self.figures.len() {
            return None;
        }
        let before = self.figures[item];
        let side = self.sides[item];
        let after = moved_from(before, side);
        self.figures[item] = after;
        adjust(&mut self.queue, item, after, side);
        self.refresh_all(base, state, base.links.readers(item));
        Some(DocketRow {
            item,
            before,
            after,
        })
    }

    // Takes turns until every item is consistent, with a row for each turn, or until the docket is full.
    pub fn settle<R: CostRule>(
        &mut self,
        base: &Base<R>,
        state: &State,
        docket: &mut [DocketRow],
    ) -> usize
        ensures keeps { Q.Queue.sound self.old.queue → Q.Queue.sound self.new.queue }
        ensures long { vec_len self.new.figures ≡ vec_len self.old.figures }
        ensures within { result ≤ length docket.old }
        ensures later { drop result docket.new ≡ drop result docket.old }
        ensures after { Q.Queue.sound self.old.queue → Settled R.CostRule.rule Q.Queue.pairs base.now state.now self.old self.new docket.old docket.new result }
    {
        for (n, place) in docket.iter_mut().enumerate() {
            let Some(row) = self.turn(base, state) else {
                return n;
            };
            *place = row;
        }
        docket.len()
    }
}
