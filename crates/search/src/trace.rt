// The way back from a row, written as a plan.
ghost use Rattle.std.specs.Prelude.{◌≡◌, ◌<◌, ◌≤◌, [], length, take, drop, slice_index_or};
ghost use Rattle.rows.specs.Rows.{blank};
ghost use Rattle.search_law.specs.Boards.{Rooted, Depth, way_back};

use rows::row::Row;

// How many rows the row is away from the first.
pub(crate) fn depth(rows: &[Row], used: usize, row: usize) -> usize
    requires fits { (row < used) × (used ≤ length rows.now) }
    requires rooted { Rooted rows.now used }
    requires low { (slice_index_or rows.now row blank).steps < used }
    ensures far { Depth rows.now result row }
    ensures low { result ≤ (slice_index_or rows.now row blank).steps }
{
    let mut n = 0;
    let mut i = row;
    // From parent to parent, up to the first row.
    while i != 0 {
        n += 1;
        i = rows[i].from as usize;
    }
    n
}

// Writes the actions that lead to the row.
pub(crate) fn trace(rows: &[Row], used: usize, row: usize, n: usize, steps: &mut [u16])
    requires fits { (row < used) × (used ≤ length rows.now) }
    requires rooted { Rooted rows.now used }
    requires far { Depth rows.now n row }
    requires room { n ≤ length steps.old }
    ensures front { take n steps.new ≡ way_back rows.now n row [] }
    ensures rest { drop n steps.new ≡ drop n steps.old }
{
    let mut i = row;
    for at in (0..n).rev() {
        steps[at] = rows[i].action;
        i = rows[i].from as usize;
    }
}
