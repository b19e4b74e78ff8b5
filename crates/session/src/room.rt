// The memory that a list of calls needs, got before the first of them is worked.
ghost use Rattle.std.specs.Prelude.{◌≡◌, IfOk};
ghost use Rattle.session.specs.Rooms.{settles, Roomy, Stocked};

use crate::call::{Answer, Call};
use settling::row::DocketRow;
use std::alloc::{AllocError, Global};

// A place for each answer, and a docket for each settle.
#[derive(Drop)]
pub struct Room {
    pub(crate) answers: Vec<Answer>,
    pub(crate) dockets: Vec<Vec<DocketRow>>,
}

// How many dockets the calls need.
fn dockets_for(calls: &[Call]) -> usize
    ensures { result ≡ settles calls.now }
{
    calls
        .iter()
        .filter(|call| matches!(call, Call::Settle(_)))
        .count()
}

// So many dockets.
fn blank_dockets(heap: Global, count: usize, rows: usize) -> Result<Vec<Vec<DocketRow>>, AllocError>
    ensures { IfOk result (λ v. Stocked count rows v.items) }
{
    let mut all = Vec::new(heap);
    for _i in 0..count {
        all.push(vec![in heap; DocketRow::default(); rows]?)?;
    }
    Ok(all)
}

// Room for the calls, their dockets having so many rows.
pub(crate) fn reserve(heap: Global, rows: usize, calls: &[Call]) -> Result<Room, AllocError>
    ensures { IfOk result (Roomy rows calls.now) }
{
    let answers = Vec::with_capacity(heap, calls.len())?;
    let dockets = blank_dockets(heap, dockets_for(calls), rows)?;
    Ok(Room { answers, dockets })
}
