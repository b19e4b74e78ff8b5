// What a cost rule is.
ghost use Rattle.std.specs.Prelude.{◌≡◌, map};
ghost use Rattle.figure.specs.Ranks.{rank};
ghost use Rattle.model.specs.Figures.{Rule, Laws, table};

use figure::figure::Figure;

// Makes one figure from a list of figures.
pub trait CostRule: Sized {
    // The rank of the result over the ranks of the members.
    ghost rule: { Self → Rule };

    // The result over the figures of these items; an item past the figures counts as none.
    fn over(&self, figures: &[Figure], items: &[u8]) -> Figure
        ensures { rank result ≡ rule self.now (map (table figures.now) items.now) };

    // Nothing gives 0; at least every member; raising a member never lowers it; even members give an even figure or none.
    ghost lawful: { (s : Self) → Laws (rule s) };
}
