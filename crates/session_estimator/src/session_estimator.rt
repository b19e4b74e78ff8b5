// A session with a docket of its own.
ghost use Rattle.std.specs.Prelude.{◌*◌, ◌≤◌, vec_len};
ghost use Rattle.model.specs.Strips.{items};
ghost use Rattle.session.specs.Sessions.{task_of};

use rules::largest::MaxRule;
use session::session::Session;
use settling::row::DocketRow;

// Fits the session's own task, and answers the goal figure of the state that is asked.
#[derive(Drop)]
pub struct SessionEstimator<Q> {
    pub(crate) session: Session<MaxRule, Q>,
    pub(crate) docket: Vec<DocketRow>,
    ghost room: { 2 * items (task_of session) ≤ vec_len docket },
}
