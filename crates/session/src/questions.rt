// Questions, which alter nothing.
ghost use Rattle.std.specs.Prelude.{◌≡◌};
ghost use Rattle.strips.specs.Standing.{standing};

use crate::session::Session;
use strips::state::State;
use strips::task::Task;

impl<R, Q> Session<R, Q> {
    // The task.
    pub fn task(&self) -> &Task
        ensures { result.now ≡ self.now.base.task }
    {
        &self.base.task
    }

    // The facts that stand.
    pub fn state(&self) -> State
        ensures { result ≡ self.now.state }
    {
        let facts = self.state;
        facts
    }

    // Whether a fact stands.
    pub fn stands(&self, fact: u8) -> bool
        ensures { result ≡ standing self.now.state fact }
    {
        self.state.stands(fact)
    }

    // Whether figures can be told.
    pub fn is_settled(&self) -> bool
        ensures { result ≡ self.now.settled }
    {
        self.settled
    }
}
