// Which rule, queue and estimator, and the numbers by which a caller can choose them.
ghost use Rattle.std.specs.Prelude.{◌≡◌};
ghost use Rattle.std.specs.Result.{result_ok};
ghost use Rattle.choices.specs.Numbers.{rule_numbered, queue_numbered, estimator_numbered};

#[derive(Clone, Copy)]
pub enum RuleChoice {
    Additive,
    Max,
}

#[derive(Clone, Copy)]
pub enum QueueChoice {
    Heap,
    Table,
}

#[derive(Clone, Copy)]
pub enum EstimatorChoice {
    Blind,
    Session,
    // Keeping over the larger of a session and blind.
    Keeping,
}

// A number under which nothing can be chosen.
#[derive(Clone, Copy, Debug, PartialEq, Eq)]
pub struct UnknownChoice;

// One impl for each choice: the numbers and the variants are all that it says.
impl TryFrom<u8> for RuleChoice {
    type Error = UnknownChoice;

    ghost try_from_gives = { λ n r. result_ok r ≡ rule_numbered n };

    fn try_from(number: u8) -> Result<RuleChoice, UnknownChoice> {
        match number {
            0 => Ok(RuleChoice::Additive),
            1 => Ok(RuleChoice::Max),
            _ => Err(UnknownChoice),
        }
    }
}

impl TryFrom<u8> for QueueChoice {
    type Error = UnknownChoice;

    ghost try_from_gives = { λ n r. result_ok r ≡ queue_numbered n };

    fn try_from(number: u8) -> Result<QueueChoice, UnknownChoice> {
        match number {
            0 => Ok(QueueChoice::Heap),
            1 => Ok(QueueChoice::Table),
            _ => Err(UnknownChoice),
        }
    }
}

impl TryFrom<u8> for EstimatorChoice {
    type Error = UnknownChoice;

    ghost try_from_gives = { λ n r. result_ok r ≡ estimator_numbered n };

    fn try_from(number: u8) -> Result<EstimatorChoice, UnknownChoice> {
        match number {
            0 => Ok(EstimatorChoice::Blind),
            1 => Ok(EstimatorChoice::Session),
            2 => Ok(EstimatorChoice::Keeping),
            _ => Err(UnknownChoice),
        }
    }
}
