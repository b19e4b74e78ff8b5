// What a search works on.
use rows::row::Row;
use strips::task::Task;

// The task, what the search was lent, and how many rows are in use.
#[derive(Drop)]
pub(crate) struct Board<'t, 'a, E, Q> {
    pub(crate) task: &'t Task,
    pub(crate) est: &'a mut E,
    pub(crate) queue: &'a mut Q,
    pub(crate) rows: &'a mut [Row],
    pub(crate) used: usize,
}

// The row that another came from, and the action.
#[derive(Clone, Copy)]
pub(crate) struct Origin {
    pub(crate) row: u16,
    pub(crate) action: u16,
}

// A new state was met, and every row is taken.
#[derive(Clone, Copy, Debug, PartialEq, Eq)]
pub(crate) struct NoRoom;
