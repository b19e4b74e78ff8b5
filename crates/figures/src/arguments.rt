// The calls that the arguments ask for.
use anyhow::anyhow;
use choices::choice::RuleChoice;
use session::call::Call;
use std::env;

// As many rows as the largest task can need: two for each of 255 facts and 512 actions.
const ROWS: usize = 1534;

// A call whose number comes in the next argument.
#[derive(Clone, Copy)]
enum Begun {
    Enter,
    Strike,
    Figure,
}

fn fact_numbered(number: u16) -> anyhow::Result<u8> {
    let Ok(fact) = u8::try_from(number) else {
        return Err(anyhow!("a fact's number is below 256"));
    };
    Ok(fact)
}

impl Begun {
    fn with(self, number: u16) -> anyhow::Result<Call> {
        match self {
            Begun::Enter => Ok(Call::Enter(fact_numbered(number)?)),
            Begun::Strike => Ok(Call::Strike(fact_numbered(number)?)),
            Begun::Figure => Ok(Call::Figure(usize::from(number))),
        }
    }
}

// The calls, and by which rule they are to be worked.
#[derive(Drop)]
pub struct Asked {
    pub rule: RuleChoice,
    pub calls: Vec<Call>,
}

pub fn asked_for(rt: &HostRuntime) -> anyhow::Result<Asked> {
    let mut calls = Vec::new(rt.alloc());
    let mut rule = RuleChoice::Additive;
    let mut begun: Option<Begun> = None;
    for argument in env::args(rt)?.skip(1) {
        let word = argument.as_str();
        if let Some(call) = begun {
            let Ok(number) = word.parse::<u16>() else {
                return Err(anyhow!(
                    "after enter, strike and figure comes a number from 0 to 65535"
                ));
            };
            calls.push(call.with(number)?)?;
            begun = None;
        } else {
            match word {
                "enter" => begun = Some(Begun::Enter),
                "strike" => begun = Some(Begun::Strike),
                "figure" => begun = Some(Begun::Figure),
                "settle" => calls.push(Call::Settle(ROWS))?,
                "goal" => calls.push(Call::Goal)?,
                "--max" if calls.is_empty() => rule = RuleChoice::Max,
                _ => return Err(anyhow!(
                    "calls: enter FACT, strike FACT, settle, figure ITEM, goal; --max may come before them"
                )),
            }
        }
    }
    match begun {
        None => Ok(Asked { rule, calls }),
        Some(_) => Err(anyhow!("the last call lacks its number")),
    }
}
