// Where a look-up ended.

#[derive(Clone, Copy, Debug, PartialEq, Eq)]
pub enum Seat {
    // At the state's row.
    Found(usize),
    // No row has the state; one of that state belongs under this row.
    Under(usize),
}
