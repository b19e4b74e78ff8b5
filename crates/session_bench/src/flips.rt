// A fixed pseudo-random sequence of facts to flip: each is flipped back before the next, so that the facts stay near the start's.
use strips::task::Task;

#[derive(Clone, Copy)]
pub struct Flips {
    x: u64,
    turn: u32,
    last: u8,
}

impl Flips {
    pub fn new(seed: u64) -> Flips {
        Flips {
            x: seed.wrapping_mul(0x9e37_79b9_7f4a_7c15) | 1,
            turn: 0,
            last: 0,
        }
    }

    // A number that is below the count, if that is not 0.
    fn below(&mut self, count: u64) -> u64 {
        let mut x = self.x;
        x ^= x << 13;
        x ^= x >> 7;
        x ^= x << 17;
        self.x = x;
        (x >> 32).wrapping_mul(count) >> 32
    }

    // By turns any fact, and one that stands at the start.
    fn fresh(&mut self, task: &Task) -> u8 {
        if self.turn % 4 == 0 {
            return (self.below(u64::from(task.facts())) & 0xff) as u8;
        }
        let place = self.below(task.start().len() as u64);
        task.start().get(place as usize).copied().unwrap_or(0)
    }

    // The fact to flip next.
    pub fn next(&mut self, task: &Task) -> u8 {
        if self.turn % 2 == 0 {
            self.last = self.fresh(task);
        }
        self.turn = self.turn.wrapping_add(1);
        self.last
    }
}
