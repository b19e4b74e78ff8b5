// A session's goal figure as an estimate.
ghost use Rattle.std.specs.Prelude.{◌≡◌, ◌*◌, ◌≤◌, length, vec_len};
ghost use Rattle.std.proofs.Common.{subst};
ghost use Rattle.model.specs.Strips.{items, Plan};
ghost use Rattle.figure.specs.Ranks.{rank};
ghost use Rattle.model.specs.Figures.{max_rule};
ghost use Rattle.strips.specs.Standing.{standing};
ghost use Rattle.session.specs.Sessions.{task_of, facts_of, Sound};
ghost use Rattle.estimator.specs.Meanings.{Leaves};
ghost use Rattle.session_estimator.specs.Followed.{asked};
ghost use Rattle.session_estimator.specs.Estimating.{distance, Leads, the_table};
ghost use Rattle.model.proofs.Plans;
ghost use Rattle.strips.proofs.Keeping.{lawful};
ghost use Rattle.session_estimator.specs.Tabled.{the_table_solves};

use crate::following::follow;
use crate::session_estimator::SessionEstimator;
use estimator::estimator::Estimator;
use figure::figure::Figure;
use queue::queue::Queue;
use rules::largest::MaxRule;
use session::session::Session;
use settling::row::DocketRow;
use strips::state::State;
use strips::task::Task;

// Enters and strikes where the states differ, settles on the docket, and answers the goal figure.
fn goal_figure_at<Q: Queue<Key = Figure>>(
    session: &mut Session<MaxRule, Q>,
    docket: &mut [DocketRow],
    state: &State,
) -> Figure
    ensures figure { 2 * items (task_of session.old) ≤ length docket.old → Sound (λ _. max_rule) Q.Queue.sound Q.Queue.pairs session.old → rank result ≡ distance (task_of session.old) (standing state.now) }
    ensures leads { Leads (λ _. max_rule) Q.Queue.sound Q.Queue.pairs session.old session.new (asked (task_of session.old) (facts_of session.old) (standing state.now) (length docket.old)) }
{
    follow(session, state);
    let _ = session.settle(docket);
    session.goal_figure().unwrap_or(Figure::None)
}

impl<Q: Queue<Key = Figure>> Estimator for SessionEstimator<Q> {
    // Its own task, by meaning.
    ghost suits = { λ e p. p ≡ task_of e.session };

    // The max rule's goal figure from a state.
    ghost value = { λ e s. distance (task_of e.session) s };

    // The session was opened and handled by its own calls.
    ghost agrees = { λ e. Sound (λ _. max_rule) Q.Queue.sound Q.Queue.pairs e.session };

    ghost admissible = { λ e p fit s acts plan.
        let q = task_of e.session in
        Plans.admissible q (lawful e.session.base.task) s (the_table q s) (the_table_solves q s) acts (subst (λ r. Plan r s acts) fit plan) };

    fn fits(&self, task: &Task) -> bool {
        task.same(self.session.task())
    }

    fn estimate(&mut self, state: &State) -> Figure
        ensures figure { Sound (λ _. max_rule) Q.Queue.sound Q.Queue.pairs self.old.session → rank result ≡ distance (task_of self.old.session) (standing state.now) }
        ensures leaves { Leaves (λ e p. p ≡ task_of e.session) (λ e s. distance (task_of e.session) s) (λ e. Sound (λ _. max_rule) Q.Queue.sound Q.Queue.pairs e.session) self.old self.new }
        ensures runs { Leads (λ _. max_rule) Q.Queue.sound Q.Queue.pairs self.old.session self.new.session (asked (task_of self.old.session) (facts_of self.old.session) (standing state.now) (vec_len self.old.docket)) }
    {
        goal_figure_at(&mut self.session, &mut self.docket, state)
    }
}
