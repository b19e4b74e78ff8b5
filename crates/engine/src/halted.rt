// Why no search was made.
use rules::largest::MaxRule;
use session::call::Answer;
use session::session::Session;
use session::unopened::Unopened;

#[derive(Drop)]
pub enum Halted<Q> {
    // The session was not opened; all is given back.
    Unopened(Unopened<MaxRule, Q>),
    // The calls were worked, and then there was no memory for the search.
    NoMemory(Session<MaxRule, Q>, Vec<Answer>),
}
