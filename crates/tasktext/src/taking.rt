// Beginning a load, taking lines, closing.
ghost use Rattle.std.specs.Prelude.{◌≡◌, ◌+◌, ◌≤◌, true, [], ◌∷◌, ◌++◌, length, IfOk, if◌then◌else◌, nat_eq};
ghost use Rattle.textspec.specs.Frames.{head_frame, action_frame};
ghost use Rattle.strips.specs.Actions.{action_of};
ghost use Rattle.strips.specs.Fitting.{fits};
ghost use Rattle.hexline.specs.Lines.{bytes_of, left};
ghost use Rattle.tasktext.specs.Loads.{taken, Taking, Closing};

use crate::frame::{Frame, Sizes};
use crate::load::Load;
use hexline::line::Reader;
use std::alloc::{AllocError, Global};
use strips::action::Action;
use strips::list::FactList;
use strips::task::Task;
use textfault::fault::{LoadFault, Place};
use textspec::due::Due;

// The frame that is due after `count` actions.
fn next_due(facts: u8, wanted: usize, count: usize) -> Due
    ensures { result ≡ (if nat_eq count wanted then Due.Goal facts else Due.Action facts) }
{
    if count == wanted {
        Due::Goal(facts)
    } else {
        Due::Action(facts)
    }
}

impl Load {
    // A load that has taken no line. It has all the memory that it can come to need.
    pub fn begin(heap: Global) -> Result<Load, AllocError>
        ensures { IfOk result (λ l. taken l ≡ []) }
    {
        let actions = Vec::with_capacity(heap, 512)?;
        Ok(Load {
            due: Due::Head,
            facts: 0,
            wanted: 0,
            actions,
            goal: FactList::new(),
            start: FactList::new(),
        })
    }

    // How many lines were taken.
    pub fn accepted(&self) -> u16
        ensures count { result ≡ length (taken self.now) }
        ensures few { result ≤ 516 }
    {
        let n = self.actions.len() as u16;
        match self.due {
            Due::Head => 0,
            Due::Action(_) | Due::Goal(_) => n + 1,
            Due::Start(_) => n + 2,
            Due::End => n + 3,
            Due::Nothing => n + 4,
        }
    }

    fn put_head(&mut self, sizes: Sizes)
        requires { self.old.due ≡ Due.Head }
        ensures { taken self.new ≡ taken self.old ++ head_frame sizes.facts sizes.actions ∷ [] }
    {
        self.facts = sizes.facts;
        self.wanted = sizes.actions;
        self.goal = FactList::new();
        self.start = FactList::new();
        self.due = next_due(sizes.facts, sizes.actions as usize, self.actions.len());
    }

    fn put_action(&mut self, facts: u8, action: Action)
        requires due { self.old.due ≡ Due.Action facts }
        requires fit { fits facts action ≡ true }
        ensures { taken self.new ≡ taken self.old ++ action_frame (action_of action) ∷ [] }
    {
        self.actions.push_reserved(action);
        self.due = next_due(facts, self.wanted as usize, self.actions.len());
    }

    // Takes the frame that is due.
    fn put(&mut self, frame: Frame<'_>)
        requires { frame.due ≡ self.old.due }
        ensures { taken self.new ≡ taken self.old ++ bytes_of frame.entry.line ∷ [] }
    {
        match self.due {
            Due::Head => self.put_head(frame.sizes()),
            Due::Action(facts) => self.put_action(facts, frame.action(facts)),
            Due::Goal(facts) => {
                self.goal = frame.facts(facts);
                self.due = Due::Start(facts);
            }
            Due::Start(facts) => {
                self.start = frame.facts(facts);
                self.due = Due::End;
            }
            Due::End => self.due = Due::Nothing,
            Due::Nothing => {}
        }
    }

    // Takes the reader's next line, or says why it is refused. Then load and reader are as they were.
    pub fn take_line(&mut self, reader: &mut Reader<'_>) -> Result<(), LoadFault>
        ensures { Taking self.old (left reader.old) self.new (left reader.new) result }
    {
        let frame = Frame::next(reader, self.accepted() + 1, self.due)?;
        self.put(frame);
        Ok(())
    }

    // The task, once the end frame was taken; before, the load goes on.
    pub fn close(self) -> Result<Task, (Load, LoadFault)>
        ensures { Closing self result }
    {
        match self.due {
            Due::Nothing => {
                let Load {
                    due: _,
                    facts,
                    wanted: _,
                    actions,
                    goal,
                    start,
                } = self;
                Ok(Task::new(facts, actions, goal, start).unwrap())
            }
            _ => {
                let place = Place {
                    line: self.accepted() + 1,
                    at: 1,
                };
                Err((self, LoadFault::Early(place)))
            }
        }
    }

    // Lets the load go. Tells how many lines it had taken.
    pub fn abandon(self) -> u16
        ensures { result ≡ length (taken self) }
    {
        let count = self.accepted();
        let Load {
            due: _,
            facts: _,
            wanted: _,
            actions: _,
            goal: _,
            start: _,
        } = self;
        count
    }
}
