// Sweeps over the items: each gets what the equations make of the present figures.
ghost use Rattle.std.specs.Prelude.{◌≡◌, length};
ghost use Rattle.model.specs.Strips.{items};
ghost use Rattle.model.specs.Figures.{table, Solves};
ghost use Rattle.strips.specs.Tasks.{problem};
ghost use Rattle.solve.specs.Systems.{equations_of};
ghost use Rattle.solve.specs.Tables.{Falling, Swept};

use crate::equations::Equations;
use figure::figure::Figure;
use rules::rule::CostRule;

impl<R: CostRule> Equations<'_, R> {
    // One sweep, in the order of the items. Tells whether a figure changed.
    fn sweep(&self, figures: &mut [Figure]) -> bool
        requires { Falling (equations_of R.CostRule.rule self.now) (table figures.old) }
        ensures { Swept (equations_of R.CostRule.rule self.now) (length figures.old) figures.old figures.new result }
    {
        let mut changed = false;
        // By number, since each right-hand side reads all the figures, those that the sweep has changed among them.
        for item in 0..figures.len() {
            let side = self.side(figures, item);
            if side != figures[item] {
                figures[item] = side;
                changed = true;
            }
        }
        changed
    }

    // Sweeps until nothing changes. It ends, since figures only fall.
    pub(crate) fn sweep_all(&self, figures: &mut [Figure])
        requires whole { length figures.old ≡ items (problem self.now.task.now) }
        requires falling { Falling (equations_of R.CostRule.rule self.now) (table figures.old) }
        ensures { Solves (equations_of R.CostRule.rule self.now) (table figures.new) }
    {
        while self.sweep(figures) {}
    }
}
