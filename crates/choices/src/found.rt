// What a search found.
use search_law::outcome::Outcome;
use search_law::refusal::SearchRefusal;

// How it ended, and the step list, which begins with the plan if there is one.
#[derive(Drop)]
pub struct Found {
    pub result: Result<Outcome, SearchRefusal>,
    pub steps: Vec<u16>,
}
