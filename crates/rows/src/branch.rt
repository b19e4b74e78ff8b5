// How the way of a look-up branches at a row.
ghost use Rattle.std.specs.Prelude.{◌≡◌, ◌⊎◌};
ghost use Rattle.strips.specs.Standing.{standing};
ghost use Rattle.rows.specs.Lookups.{link, linked, Leaf};

use crate::row::Row;
use strips::state::State;

// A fact that stands in one state only. Any fact would do; this one keeps look-ups short.
fn differing(left: &State, right: &State) -> u8 {
    (0..=255)
        .find(|&fact| left.stands(fact) != right.stands(fact))
        .unwrap_or(0)
}

impl Row {
    // The row at which a look-up of the state goes on.
    pub(crate) fn next(&self, state: &State) -> Option<u16>
        ensures { result ≡ link self.now (standing state.now) }
    {
        if state.stands(self.fact) {
            self.on
        } else {
            self.off
        }
    }

    // The fact by which look-ups branch here; it is chosen when the first link is made.
    pub(crate) fn branch(&self, state: &State) -> u8
        ensures { (result ≡ self.now.fact) ⊎ Leaf self.now }
    {
        match (self.off, self.on) {
            (None, None) => differing(&self.state, state),
            _ => self.fact,
        }
    }

    // The row with a link to the number, for look-ups of the state.
    pub(crate) fn link_to(self, state: &State, fact: u8, number: u16) -> Row
        ensures { result ≡ linked self (standing state.now) fact number }
    {
        let link = Some(number);
        if state.stands(fact) {
            Row {
                fact,
                on: link,
                ..self
            }
        } else {
            Row {
                fact,
                off: link,
                ..self
            }
        }
    }
}
