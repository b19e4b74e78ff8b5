// A task: facts and actions, a goal and a start.
ghost use Rattle.std.specs.Prelude.{◌≡◌, ◌<◌, ◌≤◌, true, vec_len};
ghost use Rattle.strips.specs.Lists.{listed};
ghost use Rattle.strips.specs.Fitting.{below, all_fit};

use crate::action::Action;
use crate::fact_set::FactSet;
use crate::fault::TaskFault;
use crate::list::FactList;
use crate::state::State;
use std::alloc::{AllocError, Global};

// The actions stand last: `==` goes by this order, and compares the most only where all else is the same.
#[derive(PartialEq, Eq, Drop)]
pub struct Task {
    facts: u8,
    goal: FactSet<255>,
    start: FactList<255>,
    actions: Vec<Action>,
    ghost some: { 0 < facts },
    ghost low: { facts ≤ 255 },
    ghost few: { vec_len actions ≤ 512 },
    ghost fit: { all_fit facts actions.items ≡ true },
    ghost goal_known: { below facts (listed goal.list) ≡ true },
    ghost start_known: { below facts (listed start) ≡ true },
}

impl Task {
    ghost use Rattle.std.specs.Prelude.{length, Some, None, MatchOption, Decides, IfOk};
    ghost use Rattle.std.specs.List.{slice_get};
    ghost use Rattle.model.specs.Strips.{Lawful, these, items, May, step, Goal};
    ghost use Rattle.strips.specs.Standing.{standing};
    ghost use Rattle.strips.specs.Actions.{action_of};
    ghost use Rattle.strips.specs.Tasks.{problem, first_unfit, flaw, Made};

    // The number of the first action that names an unknown fact.
    fn first_unfit(facts: u8, actions: &[Action]) -> Option<usize>
        ensures { result ≡ first_unfit facts 0 actions.now }
    {
        actions.iter().position(|action| !action.fits(facts))
    }

    // Why the parts make no task, if they make none.
    fn flaw_of(
        facts: u8,
        actions: &[Action],
        goal: &FactList<255>,
        start: &FactList<255>,
    ) -> Option<TaskFault>
        ensures { result ≡ flaw facts actions.now (listed goal.now) (listed start.now) }
    {
        if facts == 0 {
            return Some(TaskFault::NoFacts);
        }
        if actions.len() > 512 {
            return Some(TaskFault::TooManyActions);
        }
        if let Some(number) = Task::first_unfit(facts, actions) {
            return Some(TaskFault::InAction(number));
        }
        if !goal.is_below(facts) {
            return Some(TaskFault::InGoal);
        }
        if !start.is_below(facts) {
            return Some(TaskFault::InStart);
        }
        None
    }

    // The task of these parts, or why they make none; the actions are then given back.
    pub fn new(
        facts: u8,
        actions: Vec<Action>,
        goal: FactList<255>,
        start: FactList<255>,
    ) -> Result<Task, (TaskFault, Vec<Action>)>
        ensures { Made facts actions goal start result }
    {
        match Task::flaw_of(facts, actions.as_slice(), &goal, &start) {
            Some(fault) => Err((fault, actions)),
            None => Ok(Task {
                facts,
                actions,
                goal: FactSet::new(goal),
                start,
            }),
        }
    }

    // How many facts there are. Every task is lawful.
    pub fn facts(&self) -> u8
        ensures is { result ≡ (problem self.now).facts }
        ensures lawful { Lawful (problem self.now) }
    {
        self.facts
    }

    // How many actions there are.
    pub fn action_count(&self) -> usize
        ensures is { result ≡ length (problem self.now).actions }
        ensures few { result ≤ 512 }
    {
        self.actions.len()
    }

    // How many items there are: facts, then actions.
    pub fn item_count(&self) -> usize
        ensures { result ≡ items (problem self.now) }
    {
        usize::from(self.facts) + self.action_count()
    }

    // The action of a number.
    pub fn action(&self, number: usize) -> Option<&Action>
        ensures { MatchOption result (slice_get (problem self.now).actions number ≡ None) (λ a. slice_get (problem self.now).actions number ≡ Some (action_of a.now)) }
    {
        self.actions.get(number)
    }

    // The facts that a plan must make stand.
    pub fn goal(&self) -> &[u8]
        ensures { result.now ≡ (problem self.now).goal }
    {
        self.goal.list.as_slice()
    }

    // The facts that stand at first.
    pub fn start(&self) -> &[u8]
        ensures { result.now ≡ (problem self.now).start }
    {
        self.start.as_slice()
    }

    // The state in which the start facts stand.
    pub fn start_state(&self) -> State
        ensures { standing result ≡ these (problem self.now).start }
    {
        State::of(self.start())
    }

    // Whether the action of the number may be taken in the state.
    pub fn may(&self, action: usize, state: &State) -> bool
        ensures { Decides result (May (problem self.now) action (standing state.now)) }
    {
        match self.action(action) {
            Some(action) => state.covers(&action.preconditions.state),
            None => false,
        }
    }

    // The state after the action; the same state for a number that is no action's.
    pub fn after(&self, action: usize, state: &State) -> State
        ensures { standing result ≡ step (problem self.now) action (standing state.now) }
    {
        let mut next = *state;
        if let Some(action) = self.action(action) {
            next.change(&action.deletes.state, &action.adds.state);
        }
        next
    }

    // Whether the goal stands in the state.
    pub fn has_goal(&self, state: &State) -> bool
        ensures { Decides result (Goal (problem self.now) (standing state.now)) }
    {
        state.covers(&self.goal.state)
    }

    // Whether the other task states the same problem.
    pub fn same(&self, other: &Task) -> bool
        ensures { Decides result (problem self.now ≡ problem other.now) }
    {
        self == other
    }

    // A task that states the same problem, in memory of its own.
    pub fn twin(&self, heap: Global) -> Result<Task, AllocError>
        ensures { IfOk result (λ t. problem t ≡ problem self.now) }
    {
        Ok(Task {
            facts: self.facts,
            actions: Vec::from_slice(heap, self.actions.as_slice())?,
            goal: self.goal,
            start: self.start,
        })
    }
}
