// How a search ended.

// Each with the number of rows used, which is read where the ending is matched.
#[derive(Clone, Copy, Debug, PartialEq, Eq)]
pub enum Outcome {
    // A plan of this length is in the step list.
    Plan { length: usize, used: usize },
    // There is no plan.
    NoPlan { used: usize },
    // A new state was met and every row is taken.
    RowsFull { used: usize },
}
