// A line of the kind and the length that are due.
ghost use Rattle.std.specs.Prelude.{◌≡◌, ◌<◌, true, false, length, slice_index, None, MatchResult};
ghost use Rattle.textspec.specs.Refusals.{not_due, whole, out_of_bounds, follows, not_rising, refusal};
ghost use Rattle.hexline.specs.Lines.{bytes_of};

use crate::bytes::{byte, len};
use hexline::line::Line;
use textfault::fault::{FrameFault, Place};
use textspec::due::Due;

// A line that is of the kind and the length that are due; its numbers are still to be looked at.
#[derive(Clone, Copy)]
pub(crate) struct Whole<'a> {
    pub(crate) line: Line<'a>,
    pub(crate) due: Due,
    ghost kind: { not_due due (bytes_of line) ≡ false },
    ghost size: { whole due (bytes_of line) ≡ true },
}

// Whether the line is as long as the kind that is due and its counts say.
fn is_whole(line: &Line<'_>, due: Due) -> bool
    ensures { result ≡ whole due (bytes_of line.now) }
{
    let count = len(line);
    match due {
        Due::Head => count == 4,
        Due::Action(_) => {
            count >= 4
                && count
                    == 4 + byte(line, 1) as usize + byte(line, 2) as usize + byte(line, 3) as usize
        }
        Due::Goal(_) | Due::Start(_) => count >= 2 && count == 2 + byte(line, 1) as usize,
        Due::End => count == 1,
        Due::Nothing => true,
    }
}

impl<'a> Whole<'a> {
    ghost use Rattle.tasktext.specs.Framing.{IsFirst};

    // The line as a whole frame, or the fault of its kind or its length.
    pub(crate) fn of(line: Line<'a>, due: Due) -> Result<Whole<'a>, FrameFault>
        ensures { MatchResult result (λ w. (w.line ≡ line.entry) × (w.due ≡ due)) (λ e. IsFirst due line.entry e) }
    {
        let number = line.number();
        if due.kind() != Some(byte(&line, 0)) {
            return Err(FrameFault::NotDue(Place {
                line: number,
                at: 0,
            }));
        }
        if !is_whole(&line, due) {
            return Err(FrameFault::Length(Place {
                line: number,
                at: len(&line) as u16,
            }));
        }
        Ok(Whole { line, due })
    }

    // Whether byte k, or the number of two bytes that begins there, is out of bounds.
    fn out_of_bounds(&self, k: usize) -> bool
        requires { k < length (bytes_of self.now.line) }
        ensures { result ≡ out_of_bounds self.now.due (bytes_of self.now.line) k }
    {
        let b = byte(&self.line, k);
        match self.due {
            Due::Head => match k {
                1 => b == 0,
                2 => b as u16 * 256 + byte(&self.line, 3) as u16 > 512,
                _ => false,
            },
            Due::Action(facts) => match k {
                0 => false,
                1..=3 => b > 16,
                _ => b >= facts,
            },
            Due::Goal(facts) | Due::Start(facts) => k >= 2 && b >= facts,
            Due::End | Due::Nothing => false,
        }
    }

    // Whether byte k is one of a list's, and not its first.
    fn follows(&self, k: usize) -> bool
        ensures { result ≡ follows self.now.due (bytes_of self.now.line) k }
    {
        match self.due {
            Due::Action(_) => {
                let add = 4 + byte(&self.line, 1) as usize;
                let del = add + byte(&self.line, 2) as usize;
                k > 4 && k != add && k != del
            }
            Due::Goal(_) | Due::Start(_) => k > 2,
            Due::Head | Due::End | Due::Nothing => false,
        }
    }

    // Whether byte k is not above the one before it in its list.
    fn not_rising(&self, k: usize) -> bool
        requires { k < length (bytes_of self.now.line) }
        ensures { result ≡ not_rising self.now.due (bytes_of self.now.line) k }
    {
        k > 0 && byte(&self.line, k) <= byte(&self.line, k - 1) && self.follows(k)
    }

    // Whether each number is within bounds and each list rises.
    // By one loop, since each look decodes a byte: a pass for each test made reading a tenth slower.
    pub(crate) fn check(&self) -> Result<(), FrameFault>
        ensures { MatchResult result (λ _. refusal self.now.due (bytes_of self.now.line) ≡ None) (λ e. IsFirst self.now.due self.now.line e) }
    {
        let number = self.line.number();
        let mut fall = None;
        for k in 0..len(&self.line) {
            if self.out_of_bounds(k) {
                return Err(FrameFault::Bounds(Place {
                    line: number,
                    at: k as u16,
                }));
            }
            fall = fall.or(self.not_rising(k).then_some(k));
        }
        match fall {
            Some(k) => Err(FrameFault::Rising(Place {
                line: number,
                at: k as u16,
            })),
            None => Ok(()),
        }
    }
}
