// Making an estimator of a session.
ghost use Rattle.std.specs.Prelude.{◌≡◌, MatchResult};

use crate::session_estimator::SessionEstimator;
use rules::largest::MaxRule;
use session::session::Session;
use settling::row::DocketRow;
use std::alloc::Global;

impl<Q> SessionEstimator<Q> {
    // Over a session, with a docket of its own. Where memory is wanting, the session is given back.
    pub fn new(
        heap: Global,
        session: Session<MaxRule, Q>,
    ) -> Result<SessionEstimator<Q>, Session<MaxRule, Q>>
        ensures { MatchResult result (λ e. e.session ≡ session) (λ s. s ≡ session) }
    {
        let rows = 2 * session.task().item_count();
        let Ok(docket) = vec![in heap; DocketRow::default(); rows] else {
            return Err(session);
        };
        Ok(SessionEstimator { session, docket })
    }

    // The session, as the estimates left it.
    pub fn into_session(self) -> Session<MaxRule, Q>
        ensures { result ≡ self.session }
    {
        let SessionEstimator { session, docket: _ } = self;
        session
    }
}
