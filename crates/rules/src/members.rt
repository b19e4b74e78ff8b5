// Reading the members of a list.
ghost use Rattle.std.specs.Prelude.{◌≡◌, slice_index_or};
ghost use Rattle.figure.specs.declared.figure.Figure.TheVariants.{None};
ghost use Rattle.figure.specs.Ranks.{rank};
ghost use Rattle.model.specs.Figures.{table};

use figure::figure::Figure;

// The figure of an item: none past the last.
pub fn figure_at(figures: &[Figure], item: usize) -> Figure
    ensures value { result ≡ slice_index_or figures.now item None }
    ensures ranked { rank result ≡ table figures.now item }
{
    figures.get(item).copied().unwrap_or_default()
}
