// What a search refuses.
ghost use Rattle.std.specs.Prelude.{◌≡◌};
ghost use Rattle.search_law.specs.Numbered.{SmallestTold};
ghost use Rattle.search_law.specs.Refusals.{number_of};

// A search that the calling program should not have asked for.
#[derive(Clone, Copy, Debug, PartialEq, Eq)]
pub enum SearchRefusal {
    // The start state has a fact that the task lacks; this is the first.
    StateBeyond { fact: u8 },
    // The queue is not empty, or its capacity is below the number of rows.
    QueueUnfit,
    // There are no rows or more than 65,535, or the step list is shorter than the rows.
    RowsUnfit,
    // The estimator does not fit the task.
    EstimatorUnfit,
}

impl SearchRefusal {
    // The number under which it is known.
    pub fn number(self) -> u8
        ensures { result ≡ number_of self }
    {
        match self {
            SearchRefusal::StateBeyond { .. } => 8,
            SearchRefusal::QueueUnfit => 11,
            SearchRefusal::RowsUnfit => 15,
            SearchRefusal::EstimatorUnfit => 16,
        }
    }
}

// Of all that stands in the way of a search, the refusal with the smallest number is given, with its values.
pub fn smallest_told()
    ensures { SmallestTold }
{}
