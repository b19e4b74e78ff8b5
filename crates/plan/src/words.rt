// Answers in words.
use planning::planned::Planned;
use search_law::outcome::Outcome;
use std::fmt;

#[derive(Clone, Copy)]
pub struct InWords<'a>(pub &'a Planned);

impl fmt::Display for InWords<'_> {
    fn fmt<W: fmt::Write>(&self, f: &mut fmt::Formatter<W>) -> fmt::Result {
        let planned = self.0;
        let additive = planned.additive;
        let max = planned.max;
        writeln!(f, "goal figure: additive {additive}, max {max}")?;
        match planned.outcome {
            Outcome::Plan { length, used } => {
                write!(f, "a shortest plan has {length} steps:")?;
                for step in &planned.steps {
                    write!(f, " {step}")?;
                }
                write!(f, " ({used} rows used)")
            }
            Outcome::NoPlan { used } => write!(f, "there is no plan ({used} rows used)"),
            Outcome::RowsFull { used } => {
                write!(f, "all {used} rows are full before a plan was found")
            }
        }
    }
}
