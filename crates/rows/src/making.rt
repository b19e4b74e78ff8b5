// Making rows.
ghost use Rattle.std.specs.Prelude.{◌≡◌, []};
ghost use Rattle.figure.specs.declared.figure.Figure.TheVariants.{None as Never};
ghost use Rattle.model.specs.Strips.{these};
ghost use Rattle.strips.specs.Standing.{standing};
ghost use Rattle.rows.specs.Rows.{fresh};

use crate::row::Row;
use figure::figure::Figure;
use strips::state::State;

impl Row {
    // A row that was not opened.
    pub fn new(state: State, steps: u32, estimate: Figure, from: u16, action: u16) -> Row
        ensures { result ≡ fresh state steps estimate from action }
    {
        Row {
            state,
            steps,
            estimate,
            from,
            action,
            opened: false,
            fact: 0,
            off: None,
            on: None,
        }
    }

    // A row that no search has used.
    pub fn unused() -> Row
        ensures { (standing result.state ≡ these []) × (result ≡ fresh result.state 0 Never 0 0) }
    {
        Row::new(State::new(), 0, Figure::None, 0, 0)
    }
}
