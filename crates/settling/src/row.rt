// A row of a docket.
use figure::figure::Figure;

// A change of one item's figure.
#[derive(Debug, Clone, Copy, Default, PartialEq, Eq)]
pub struct DocketRow {
    pub item: usize,
    pub before: Figure,
    pub after: Figure,
}
