// The indexes of a task.

// Built once, when a session is opened, and never changed.
#[derive(Drop)]
pub struct Links {
    // By fact, the items of the actions that add it.
    pub(crate) adders: Vec<Vec<usize>>,
    // By item, the items that read it: the actions that need a fact, the facts that an action adds.
    pub(crate) readers: Vec<Vec<usize>>,
}
