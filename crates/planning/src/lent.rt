// What is lent to a search.
use heap::heap::HeapQueue;
use queue::key::Pair;
use rows::row::Row;

#[derive(Drop)]
pub struct Lent {
    pub(crate) frontier: HeapQueue<Pair>,
    pub(crate) rows: Vec<Row>,
    pub(crate) steps: Vec<u16>,
}
