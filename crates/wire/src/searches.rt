// The result of a search, written in bytes.
ghost use Rattle.std.specs.Prelude.{◌≡◌, ◌∷◌, ◌++◌, take, IfOk, OnOk};
ghost use Rattle.std.specs.List.{flat_map};
ghost use Rattle.wire.specs.Numbers.{two};
ghost use Rattle.wire.specs.Searches.{search_bytes};

use crate::numbers::two_bytes;
use search_law::outcome::Outcome;
use search_law::refusal::SearchRefusal;
use std::alloc::{AllocError, Global};

// Appends steps.
fn put_steps(bytes: &mut Vec<u8>, steps: &[u16]) -> Result<(), AllocError>
    ensures { OnOk result (bytes.new.items ≡ bytes.old.items ++ flat_map two steps.now) }
{
    for step in steps {
        bytes.extend_from_slice(&step.to_be_bytes())?;
    }
    Ok(())
}

// The bytes of a search's result; a plan's actions are the first steps.
pub fn encode_search(
    heap: Global,
    res: Result<Outcome, SearchRefusal>,
    steps: &[u16],
) -> Result<Vec<u8>, AllocError>
    ensures { IfOk result (λ v. v.items ≡ search_bytes res steps.now) }
{
    let mut bytes = Vec::new(heap);
    match res {
        Ok(Outcome::Plan { length, used }) => {
            let [high, low] = two_bytes(used);
            bytes.extend_from_slice(&[1, high, low])?;
            bytes.extend_from_slice(&two_bytes(length))?;
            put_steps(&mut bytes, &steps[..length.min(steps.len())])?;
        }
        Ok(Outcome::NoPlan { used }) => {
            let [high, low] = two_bytes(used);
            bytes.extend_from_slice(&[2, high, low])?;
        }
        Ok(Outcome::RowsFull { used }) => {
            let [high, low] = two_bytes(used);
            bytes.extend_from_slice(&[3, high, low])?;
        }
        Err(SearchRefusal::StateBeyond { fact }) => bytes.extend_from_slice(&[4, 8, fact])?,
        Err(SearchRefusal::QueueUnfit) => bytes.extend_from_slice(&[4, 11])?,
        Err(SearchRefusal::RowsUnfit) => bytes.extend_from_slice(&[4, 15])?,
        Err(SearchRefusal::EstimatorUnfit) => bytes.extend_from_slice(&[4, 16])?,
    }
    Ok(bytes)
}
