// Reading held figures.
ghost use Rattle.std.specs.Prelude.{◌≡◌};

use crate::held::HeldFigures;
use figure::figure::Figure;

impl<Q> HeldFigures<Q> {
    // The held figures, by item.
    pub fn as_slice(&self) -> &[Figure]
        ensures { result.now ≡ self.now.figures.items }
    {
        self.figures.as_slice()
    }

    // The queue, the figures being let go.
    pub fn into_queue(self) -> Q
        ensures { result ≡ self.queue }
    {
        let HeldFigures {
            figures: _,
            sides: _,
            queue,
        } = self;
        queue
    }
}
