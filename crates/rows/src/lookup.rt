// Looking states up among rows, and linking new rows.
ghost use Rattle.std.specs.Prelude.{◌≡◌, ℕ};
ghost use Rattle.strips.specs.Standing.{standing};
ghost use Rattle.rows.specs.Lookups.{Tree, Looked, Hung};

use crate::row::Row;
use crate::seat::Seat;
use strips::state::State;

// Where the state is among the rows, or belongs. Links lead on to later rows, so that every look-up ends.
pub fn find(rows: &[Row], state: &State) -> Seat
    ensures { (used : ℕ) → Tree rows.now used → Looked rows.now used (standing state.now) result }
{
    let mut at = 0;
    while let Some(row) = rows.get(at) {
        if row.state == *state {
            return Seat::Found(at);
        }
        match row.next(state) {
            Some(next) if at < next as usize => at = next as usize,
            _ => break,
        }
    }
    Seat::Under(at)
}

// Writes the row at the number and links it from an earlier row; the rows are left as they were where these numbers do not fit.
pub fn hang(rows: &mut [Row], under: usize, number: usize, row: Row)
    ensures { Hung rows.old under number row rows.new }
{
    if under >= number || number >= rows.len() || number > 65535 {
        return;
    }
    rows[number] = Row {
        fact: 0,
        off: None,
        on: None,
        ..row
    };
    let upper = rows[under];
    let fact = upper.branch(&row.state);
    rows[under] = upper.link_to(&row.state, fact, number as u16);
}
