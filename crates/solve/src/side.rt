// The right-hand side of an item's equation.
ghost use Rattle.std.specs.Prelude.{◌≡◌, ◌+◌, map, length, if◌then◌else◌, nat_lt};
ghost use Rattle.figure.specs.Ranks.{top, rank};
ghost use Rattle.model.specs.Strips.{names, action};
ghost use Rattle.model.specs.Figures.{table, least, adders, fact_from, action_from};
ghost use Rattle.strips.specs.Standing.{standing};
ghost use Rattle.strips.specs.Tasks.{problem};
ghost use Rattle.solve.specs.Systems.{equations_of};

use crate::equations::Equations;
use figure::figure::Figure;
use rules::members::figure_at;
use rules::rule::CostRule;
use strips::task::Task;

// The figure of the action of this number if it adds the fact, or else none. What adds a fact hangs on the task alone, so this is one
// function for all rules, and so is the least of them.
fn adder_figure(task: &Task, figures: &[Figure], fact: u8, number: usize) -> Figure
    ensures { rank result ≡ (if names (action (problem task.now) number).add fact then table figures.now ((problem task.now).facts + number) else top) }
{
    if let Some(action) = task.action(number) {
        if action.adds().contains(&fact) {
            return figure_at(figures, usize::from(task.facts()) + number);
        }
    }
    Figure::None
}

fn least_adder(task: &Task, figures: &[Figure], fact: u8) -> Figure
    ensures { rank result ≡ least (table figures.now) (adders (problem task.now) fact) }
{
    (0..task.action_count()).fold(Figure::None, |best, number| {
        let figure = adder_figure(task, figures, fact, number);
        if best.at_most(figure) { best } else { figure }
    })
}

impl<R: CostRule> Equations<'_, R> {
    fn fact_side(&self, figures: &[Figure], fact: u8) -> Figure
        ensures { rank result ≡ (if standing self.now.state.now fact then 0 else fact_from (least (table figures.now) (adders (problem self.now.task.now) fact))) }
    {
        if self.state.stands(fact) {
            return Figure::of(0);
        }
        least_adder(self.task, figures, fact) + Figure::of(1)
    }

    fn action_side(&self, figures: &[Figure], number: usize) -> Figure
        ensures { rank result ≡ (if nat_lt number (length (problem self.now.task.now).actions) then action_from (R.CostRule.rule self.now.rule.now (map (table figures.now) (action (problem self.now.task.now) number).pre)) else top) }
    {
        match self.task.action(number) {
            Some(action) => self.rule.over(figures, action.preconditions()) + Figure::of(1),
            None => Figure::None,
        }
    }

    // What the equations make of the item: none for what is no item.
    pub(crate) fn side(&self, figures: &[Figure], item: usize) -> Figure
        ensures { rank result ≡ equations_of R.CostRule.rule self.now (table figures.now) item }
    {
        let facts = usize::from(self.task.facts());
        if item < facts {
            self.fact_side(figures, item as u8)
        } else {
            self.action_side(figures, item - facts)
        }
    }
}
