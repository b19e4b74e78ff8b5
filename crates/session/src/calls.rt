// The calls of a session.
ghost use Rattle.std.specs.Prelude.{◌≡◌, ℕ, ◌*◌, length, ◌≢◌};
ghost use Rattle.model.specs.Strips.{items};
ghost use Rattle.model.specs.Runs.Call.{enter as to_enter, strike as to_strike, settle as to_settle, figure as to_tell, goal as to_tell_goal};
ghost use Rattle.strips.specs.Standing.{standing};
ghost use Rattle.strips.specs.Tasks.{problem};
ghost use Rattle.session.specs.Sessions.{Sound, Restanding, Entering, Striking, Settles, Docketing, figure_answer, goal_answer};
ghost use Rattle.session.specs.Laws.{told_of, shown_of, wrote_of, Goes};

use crate::fault::SessionFault;
use crate::session::Session;
use figure::figure::Figure;
use queue::queue::Queue;
use rules::rule::CostRule;
use settling::row::DocketRow;
use strips::state::State;
use strips::task::Task;

// Two rows for each item. By its parts, whose bounds show that the number fits.
pub(crate) fn rows_needed(task: &Task) -> usize
    ensures { result ≡ 2 * items (problem task.now) }
{
    2 * (usize::from(task.facts()) + task.action_count())
}

impl<R: CostRule, Q: Queue<Key = Figure>> Session<R, Q> {
    // Puts another state in place, if it is another at a known fact, and makes that fact right again.
    fn restand(&mut self, state: State, fact: u8, changed: bool) -> Result<bool, SessionFault>
        ensures answer { Restanding self.old self.new state fact changed result }
        ensures keeps { ((f : ℕ) → (f ≢ fact) → standing state f ≡ standing self.old.state f) → Sound R.CostRule.rule Q.Queue.sound Q.Queue.pairs self.old → Sound R.CostRule.rule Q.Queue.sound Q.Queue.pairs self.new }
    {
        if fact >= self.base.task.facts() {
            return Err(SessionFault::Unknown);
        }
        if !changed {
            return Ok(false);
        }
        self.state = state;
        self.settled = false;
        self.held
            .refresh(&self.base, &self.state, usize::from(fact));
        Ok(true)
    }

    // Makes a fact stand; tells whether it had not stood. Only then is the session unsettled.
    pub fn enter(&mut self, fact: u8) -> Result<bool, SessionFault>
        ensures answer { Entering self.old self.new fact result }
        ensures keeps { Sound R.CostRule.rule Q.Queue.sound Q.Queue.pairs self.old → Sound R.CostRule.rule Q.Queue.sound Q.Queue.pairs self.new }
        ensures law { Goes R.CostRule.rule Q.Queue.sound Q.Queue.pairs self.old (to_enter fact) (told_of result) self.new }
    {
        let mut with = self.state;
        let changed = with.insert(fact);
        self.restand(with, fact, changed)
    }

    // Makes a fact fall; tells whether it had stood. Only then is the session unsettled.
    pub fn strike(&mut self, fact: u8) -> Result<bool, SessionFault>
        ensures answer { Striking self.old self.new fact result }
        ensures keeps { Sound R.CostRule.rule Q.Queue.sound Q.Queue.pairs self.old → Sound R.CostRule.rule Q.Queue.sound Q.Queue.pairs self.new }
        ensures law { Goes R.CostRule.rule Q.Queue.sound Q.Queue.pairs self.old (to_strike fact) (told_of result) self.new }
    {
        let mut without = self.state;
        let changed = without.remove(fact);
        self.restand(without, fact, changed)
    }

    // Moves the held figures to those of the facts that stand, writes a row for each change, and answers how many.
    pub fn settle(&mut self, docket: &mut [DocketRow]) -> Result<usize, SessionFault>
        ensures answer { Settles self.old self.new docket.old docket.new result }
        ensures keeps { Sound R.CostRule.rule Q.Queue.sound Q.Queue.pairs self.old → Sound R.CostRule.rule Q.Queue.sound Q.Queue.pairs self.new }
        ensures figures { Sound R.CostRule.rule Q.Queue.sound Q.Queue.pairs self.old → Docketing R.CostRule.rule self.old self.new docket.new result }
        ensures law { Goes R.CostRule.rule Q.Queue.sound Q.Queue.pairs self.old (to_settle (length docket.old)) (wrote_of docket.new result) self.new }
    {
        if docket.len() < rows_needed(&self.base.task) {
            return Err(SessionFault::DocketShort);
        }
        let n = self.held.settle(&self.base, &self.state, docket);
        self.settled = true;
        Ok(n)
    }

    // The figure of an item.
    pub fn figure(&self, item: usize) -> Result<Figure, SessionFault>
        ensures answer { result ≡ figure_answer self.now item }
        ensures law { Goes R.CostRule.rule Q.Queue.sound Q.Queue.pairs self.now (to_tell item) (shown_of result) self.now }
    {
        if item >= self.held.as_slice().len() {
            return Err(SessionFault::Unknown);
        }
        if !self.settled {
            return Err(SessionFault::Unsettled);
        }
        Ok(self.held.as_slice()[item])
    }

    // Half the rule's result over the goal.
    pub fn goal_figure(&self) -> Result<Figure, SessionFault>
        ensures answer { result ≡ goal_answer R.CostRule.rule self.now }
        ensures law { Goes R.CostRule.rule Q.Queue.sound Q.Queue.pairs self.now to_tell_goal (shown_of result) self.now }
    {
        if !self.settled {
            return Err(SessionFault::Unsettled);
        }
        Ok(
            self.base
                .rule
                .over(self.held.as_slice(), self.base.task.goal())
                .half(),
        )
    }
}
