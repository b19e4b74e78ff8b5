// What an estimator is.
ghost use Rattle.std.specs.Prelude.{◌≡◌, ℕ, Decides};
ghost use Rattle.figure.specs.Ranks.{rank};
ghost use Rattle.model.specs.Strips.{Problem, State as Facts};
ghost use Rattle.strips.specs.Standing.{standing};
ghost use Rattle.strips.specs.Tasks.{problem};
ghost use Rattle.search_theory.specs.Estimates.{AdmissibleOn};
ghost use Rattle.estimator.specs.Meanings.{Leaves};

use figure::figure::Figure;
use strips::state::State;
use strips::task::Task;

// Says of states how far the goal is at least. Any may be asked, whether it agrees or not.
pub trait Estimator: Sized {
    // Which problems it fits.
    ghost suits: { Self → Problem → Type 0 };

    // Its function from states to figures, by rank.
    ghost value: { Self → Facts → ℕ };

    // Whether what it keeps agrees with that function. Each is made agreeing, out of agreeing ones.
    ghost agrees: { Self → Type 0 };

    // Whether the task fits, which its meaning decides.
    fn fits(&self, task: &Task) -> bool
        ensures { Decides result (suits self.now (problem task.now)) };

    // How far the goal is at least: asked of an agreeing one, the function's figure.
    fn estimate(&mut self, state: &State) -> Figure
        ensures figure { agrees self.old → rank result ≡ value self.old (standing state.now) }
        ensures leaves { Leaves suits value agrees self.old self.new };

    // For a problem that fits, at most the length of every plan, and so none only where there is no plan.
    ghost admissible: { (e : Self) (p : Problem) → suits e p → AdmissibleOn p (value e) };
}
