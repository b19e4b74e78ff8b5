// What the engine's calls answer.
use search_law::outcome::Outcome;
use search_law::refusal::SearchRefusal;
use session::call::Answer;
use session::session::Session;

// The session as the calls left it, its answers in the order of the calls, and how the search ended.
#[derive(Drop)]
pub struct Worked<R, Q> {
    pub session: Session<R, Q>,
    pub answers: Vec<Answer>,
    pub outcome: Result<Outcome, SearchRefusal>,
}
