// A frame that passed every test, and what it states.
ghost use Rattle.std.specs.Prelude.{◌≡◌, ◌<◌, ◌≤◌, true, None};
ghost use Rattle.textspec.specs.Refusals.{refusal};
ghost use Rattle.hexline.specs.Lines.{bytes_of};

use crate::bytes::byte;
use crate::whole::Whole;
use hexline::line::{Line, Reader};
use strips::action::Action;
use strips::list::FactList;
use textfault::fault::FrameFault;
use textspec::due::Due;

// A line on which the frame that is due stands.
#[derive(Clone, Copy)]
pub(crate) struct Frame<'a> {
    pub(crate) line: Line<'a>,
    pub(crate) due: Due,
    ghost accepted: { refusal due (bytes_of line) ≡ None },
}

// How many facts and actions a head frame announces.
#[derive(Clone, Copy)]
pub(crate) struct Sizes {
    pub(crate) facts: u8,
    pub(crate) actions: u16,
    ghost some: { 0 < facts },
    ghost few: { actions ≤ 512 },
}

impl<'a> Frame<'a> {
    ghost use Rattle.std.specs.Prelude.{◌+◌, ◌<◌, ◌⊎◌, ℕ, length, take, drop, slice_index};
    ghost use Rattle.textspec.specs.Frames.{head_frame, action_frame, goal_frame, start_frame};
    ghost use Rattle.strips.specs.Lists.{listed};
    ghost use Rattle.strips.specs.Actions.{action_of};
    ghost use Rattle.strips.specs.Fitting.{below, fits};
    ghost use Rattle.hexline.specs.Lines.{left};
    ghost use Rattle.tasktext.specs.Framing.{NextFrame};

    // The next line, on which the frame that is due stands. A refused line stays the next one.
    pub(crate) fn next(
        reader: &mut Reader<'a>,
        number: u16,
        due: Due,
    ) -> Result<Frame<'a>, FrameFault>
        ensures { NextFrame due number (left reader.old) (left reader.new) result }
    {
        let mut ahead = *reader;
        let line = ahead.next_line(number)?;
        Whole::of(line, due)?.check()?;
        *reader = ahead;
        Ok(Frame { line, due })
    }

    // What the head states.
    pub(crate) fn sizes(&self) -> Sizes
        requires { self.now.due ≡ Due.Head }
        ensures { bytes_of self.now.line ≡ head_frame result.facts result.actions }
    {
        Sizes {
            facts: byte(&self.line, 1),
            actions: byte(&self.line, 2) as u16 * 256 + byte(&self.line, 3) as u16,
        }
    }

    // The action that the frame states.
    pub(crate) fn action(&self, facts: u8) -> Action
        requires { self.now.due ≡ Due.Action facts }
        ensures states { bytes_of self.now.line ≡ action_frame (action_of result) }
        ensures fit { fits facts result ≡ true }
    {
        let pre = byte(&self.line, 1) as usize;
        let add = byte(&self.line, 2) as usize;
        let del = byte(&self.line, 3) as usize;
        Action::new(
            self.list(4, pre),
            self.list(4 + pre, add),
            self.list(4 + pre + add, del),
        )
    }

    // The facts that a goal's or a start's frame states.
    pub(crate) fn facts(&self, facts: u8) -> FactList<255>
        requires { (self.now.due ≡ Due.Goal facts) ⊎ (self.now.due ≡ Due.Start facts) }
        ensures goal { self.now.due ≡ Due.Goal facts → bytes_of self.now.line ≡ goal_frame (listed result) }
        ensures start { self.now.due ≡ Due.Start facts → bytes_of self.now.line ≡ start_frame (listed result) }
        ensures fit { below facts (listed result) ≡ true }
    {
        self.list(2, byte(&self.line, 1) as usize)
    }

    // The list of the `count` bytes from `from`.
    // By a loop, since the bytes stand nowhere as a slice: each is decoded from two digits.
    fn list<const N: usize>(&self, from: usize, count: usize) -> FactList<N>
        requires room { count ≤ N }
        requires within { from + count ≤ length (bytes_of self.now.line) }
        requires rising { (k : ℕ) → k + 1 < count → slice_index (bytes_of self.now.line) (from + k) < slice_index (bytes_of self.now.line) (from + k + 1) }
        ensures { listed result ≡ take count (drop from (bytes_of self.now.line)) }
    {
        let mut list = FactList::new();
        for i in 0..count {
            let _ = list.push(byte(&self.line, from + i));
        }
        list
    }
}
