// Answers of a session, written in bytes.
ghost use Rattle.std.specs.Prelude.{◌≡◌, ◌++◌, map, IfOk, OnOk};
ghost use Rattle.std.specs.List.{flat_map};
ghost use Rattle.settling.specs.Holding.{row_of};
ghost use Rattle.session.specs.Works.{reply_of};
ghost use Rattle.wire.specs.Answers.{row_bytes, reply_bytes, answer_bytes};

use crate::numbers::{figure_bytes, two_bytes};
use figure::figure::Figure;
use session::call::Answer;
use session::fault::SessionFault;
use settling::row::DocketRow;
use std::alloc::{AllocError, Global};

// Appends a docket row.
fn put_row(bytes: &mut Vec<u8>, row: DocketRow) -> Result<(), AllocError>
    ensures { OnOk result (bytes.new.items ≡ bytes.old.items ++ row_bytes (row_of row)) }
{
    bytes.extend_from_slice(&two_bytes(row.item))?;
    bytes.extend_from_slice(&figure_bytes(row.before))?;
    bytes.extend_from_slice(&figure_bytes(row.after))?;
    Ok(())
}

// Appends docket rows.
fn put_rows(bytes: &mut Vec<u8>, rows: &[DocketRow]) -> Result<(), AllocError>
    ensures { OnOk result (bytes.new.items ≡ bytes.old.items ++ flat_map row_bytes (map row_of rows.now)) }
{
    for row in rows {
        put_row(bytes, *row)?;
    }
    Ok(())
}

// Appends an answer.
fn put_answer(bytes: &mut Vec<u8>, answer: &Answer) -> Result<(), AllocError>
    ensures { OnOk result (bytes.new.items ≡ bytes.old.items ++ reply_bytes (reply_of answer.now)) }
{
    match answer {
        Answer::Told(changed) => bytes.extend_from_slice(&[1, u8::from(*changed)]),
        Answer::Wrote(rows) => {
            let [high, low] = two_bytes(rows.len());
            bytes.extend_from_slice(&[2, high, low])?;
            put_rows(bytes, rows.as_slice())?;
            Ok(())
        }
        Answer::Is(figure) => {
            let [first, second, third, fourth] = figure_bytes(*figure);
            bytes.extend_from_slice(&[3, first, second, third, fourth])
        }
        Answer::Refused(fault) => bytes.extend_from_slice(&[4, fault.number().unwrap_or(0)]),
    }
}

// The bytes of answers, one after another.
pub fn encode_answers(heap: Global, answers: &[Answer]) -> Result<Vec<u8>, AllocError>
    ensures { IfOk result (λ v. v.items ≡ answer_bytes (map reply_of answers.now)) }
{
    let mut bytes = Vec::new(heap);
    for answer in answers {
        put_answer(&mut bytes, answer)?;
    }
    Ok(bytes)
}
