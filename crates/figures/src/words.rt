// Calls and answers in words.
use session::call::{Answer, Call};
use wording::item::Item;

// Tells a call and its answer, on a task of so many facts.
pub fn tell(rt: &HostRuntime, facts: usize, call: Call, answer: &Answer) -> anyhow::Result<()> {
    print!(rt; "{call}: ")?;
    match answer {
        Answer::Told(true) => println!(rt; "changed")?,
        Answer::Told(false) => println!(rt; "as it was")?,
        Answer::Is(figure) => println!(rt; "{figure}")?,
        Answer::Refused(fault) => println!(rt; "{fault}")?,
        Answer::Wrote(rows) => {
            let count = rows.len();
            println!(rt; "{count} rows")?;
            for row in rows {
                let item = Item {
                    facts,
                    number: row.item,
                };
                let before = row.before;
                let after = row.after;
                println!(rt; "  {item}: {before} to {after}")?;
            }
        }
    }
    Ok(())
}
