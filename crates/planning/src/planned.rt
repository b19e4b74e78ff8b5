// What was found out about a task.
use figure::figure::Figure;
use search_law::outcome::Outcome;

// Both goal figures of the start, how the search ended, and the actions of the plan, none without a plan.
#[derive(Drop)]
pub struct Planned {
    pub additive: Figure,
    pub max: Figure,
    pub outcome: Outcome,
    pub steps: Vec<u16>,
}
