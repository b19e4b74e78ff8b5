// Answers in hexadecimal.
use planning::planned::Planned;
use search_law::outcome::Outcome;
use std::fmt;
use textfault::fault::LoadFault;

#[derive(Clone, Copy)]
pub struct InHex<'a>(pub &'a Planned);

impl fmt::Display for InHex<'_> {
    fn fmt<W: fmt::Write>(&self, f: &mut fmt::Formatter<W>) -> fmt::Result {
        let planned = self.0;
        // None is all ones.
        let additive = planned.additive.number().unwrap_or(u32::MAX);
        let max = planned.max.number().unwrap_or(u32::MAX);
        writeln!(f, "11{additive:08x}{max:08x}")?;
        match planned.outcome {
            Outcome::Plan { length, used: _ } => {
                write!(f, "12{length:04x}")?;
                for step in &planned.steps {
                    write!(f, "{step:04x}")?;
                }
                Ok(())
            }
            Outcome::NoPlan { used: _ } => write!(f, "13"),
            Outcome::RowsFull { used: _ } => write!(f, "14"),
        }
    }
}

#[derive(Clone, Copy)]
pub struct FaultInHex(pub LoadFault);

impl fmt::Display for FaultInHex {
    fn fmt<W: fmt::Write>(&self, f: &mut fmt::Formatter<W>) -> fmt::Result {
        let number = self.0.number();
        let place = self.0.place();
        write!(f, "15{number:02x}{:04x}{:04x}", place.line, place.at)
    }
}
