// A row: a state that was met, with the way to it.
use figure::figure::Figure;
use strips::state::State;

// The last three fields are the look-up's: look-ups of states in which the fact stands go on at the row `on`, others at `off`.
#[derive(Clone, Copy)]
pub struct Row {
    pub state: State,
    // The steps from the start.
    pub steps: u32,
    pub estimate: Figure,
    // The row that it came from, and the action; the first row came from none, and has 0 in both.
    pub from: u16,
    pub action: u16,
    pub opened: bool,
    pub(crate) fact: u8,
    pub(crate) off: Option<u16>,
    pub(crate) on: Option<u16>,
}
