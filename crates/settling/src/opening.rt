// Holding figures from the beginning.
ghost use Rattle.std.specs.Prelude.{◌≡◌, ◌≤◌, true, length, replicate, IfOk, MatchResult};
ghost use Rattle.figure.specs.declared.figure.Figure.TheVariants.{None};
ghost use Rattle.model.specs.Strips.{items};
ghost use Rattle.strips.specs.Tasks.{problem};
ghost use Rattle.links.specs.Indexes.{Linked};
ghost use Rattle.queue.specs.Queues.{vacant};
ghost use Rattle.settling.specs.Holding.{Refreshes, Keeping};

use crate::base::Base;
use crate::held::HeldFigures;
use figure::figure::Figure;
use queue::queue::Queue;
use rules::rule::CostRule;
use std::alloc::Global;
use strips::state::State;

impl<Q: Queue<Key = Figure>> HeldFigures<Q> {
    // Makes every right-hand side right.
    fn refresh_every<R: CostRule>(&mut self, base: &Base<R>, state: &State)
        ensures keeps { Q.Queue.sound self.old.queue → Q.Queue.sound self.new.queue }
        ensures held { self.new.figures ≡ self.old.figures }
        ensures after { Refreshes R.CostRule.rule Q.Queue.pairs base.now state.now self.old self.new (λ _. true) }
    {
        // By number, since each refresh takes an item's number and changes all but the figures.
        for item in 0..self.figures.len() {
            self.refresh(base, state, item);
        }
    }

    // Holds none for every item, and queues what is inconsistent. Where memory is wanting the queue comes back as it was.
    pub fn begin<R: CostRule>(
        heap: Global,
        base: &Base<R>,
        state: &State,
        queue: Q,
    ) -> Result<HeldFigures<Q>, Q>
        ensures held { MatchResult result (λ h. h.figures.items ≡ replicate (items (problem base.now.task)) None) (λ q. q ≡ queue) }
        ensures keeps { Q.Queue.sound queue → IfOk result (λ h. Q.Queue.sound h.queue) }
        ensures after { Linked (problem base.now.task) base.now.links → vacant (Q.Queue.pairs queue) ≡ true → items (problem base.now.task) ≤ length (Q.Queue.pairs queue) → IfOk result (Keeping R.CostRule.rule Q.Queue.pairs base.now state.now) }
    {
        let count = base.task.item_count();
        let Ok(figures) = vec![in heap; Figure::None; count] else {
            return Err(queue);
        };
        let Ok(sides) = vec![in heap; Figure::None; count] else {
            return Err(queue);
        };
        let mut held = HeldFigures {
            figures,
            sides,
            queue,
        };
        held.refresh_every(base, state);
        Ok(held)
    }
}
