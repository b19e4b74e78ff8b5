// A live state that is lent for a rehearsal and given back as it was.
ghost use Rattle.std.specs.Prelude.{◌≡◌};

use strips::state::State;

pub struct Guard<'a> {
    pub live: &'a mut State,
    pub saved: State,
}

impl Drop for Guard<'_> {
    // Writes the saved facts back.
    fn drop(self)
        ensures { self.exit.0.now ≡ self.entry.saved }
    {
        *self.live = self.saved;
        let Guard { live: _, saved: _ } = self;
    }
}
