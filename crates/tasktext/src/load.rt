// A task as far as its lines were taken.
ghost use Rattle.std.specs.Prelude.{◌≡◌, ◌≤◌, true, vec_len, vec_capacity};
ghost use Rattle.strips.specs.Lists.{listed};
ghost use Rattle.strips.specs.Fitting.{below, all_fit};
ghost use Rattle.tasktext.specs.Stage.{in_order};

use strips::action::Action;
use strips::list::FactList;
use textspec::due::Due;

// Not `Drop`: it is closed or abandoned. The room for every action that a task can have is there from the beginning.
pub struct Load {
    pub(crate) due: Due,
    pub(crate) facts: u8,
    pub(crate) wanted: u16,
    pub(crate) actions: Vec<Action>,
    pub(crate) goal: FactList<255>,
    pub(crate) start: FactList<255>,
    ghost order: { in_order due facts wanted (vec_len actions) ≡ true },
    ghost fit: { all_fit facts actions.items ≡ true },
    ghost goal_fit: { below facts (listed goal) ≡ true },
    ghost start_fit: { below facts (listed start) ≡ true },
    ghost room: { 512 ≤ vec_capacity actions },
}
