// The theory of best-first search: definitions in specs/, theorems in proofs/, each named by a function's contract.
#![tactic(auto)]

ghost use Rattle.search_theory.specs.Frontiers.{Frontier, NoneLeft, Taken, Found, Reached, Room};
ghost use Rattle.search_theory.specs.Measure.{FallsTaken, FallsBetter, FallsNew};
ghost use Rattle.search_theory.specs.Turns.{Starts, Begins, NotTaken, NoBetter, Better, New, Ends};

// Of each plan some queued row is ahead.
pub fn frontier()
    ensures { Frontier }
{}

// Where nothing is queued there is no plan.
pub fn none_left()
    ensures { NoneLeft }
{}

// The row that is taken promises no more than any plan has.
pub fn least_taken()
    ensures { Taken }
{}

// A row that has the goal gives a plan.
pub fn goal_found()
    ensures { Found }
{}

// The state of each row in use can be reached.
pub fn rows_reached()
    ensures { Reached }
{}

// A successor without a row makes one state more than there are rows in use.
pub fn no_room()
    ensures { Room }
{}

// The measure falls when a row is taken,
pub fn falls_taken()
    ensures { FallsTaken }
{}

// when a row is reached in fewer steps,
pub fn falls_better()
    ensures { FallsBetter }
{}

// and when a row is taken into use.
pub fn falls_new()
    ensures { FallsNew }
{}

// The first row alone is kept.
pub fn turn_starts()
    ensures { Starts }
{}

// A turn begins with a row that is taken and opened.
pub fn turn_begins()
    ensures { Begins }
{}

// It goes on past an action that may not be taken,
pub fn turn_not_taken()
    ensures { NotTaken }
{}

// past a successor that has a row in no more steps,
pub fn turn_no_better()
    ensures { NoBetter }
{}

// past one that is reached in fewer steps than before,
pub fn turn_better()
    ensures { Better }
{}

// and past one that gets a row of its own.
pub fn turn_new()
    ensures { New }
{}

// After the last action all is kept.
pub fn turn_ends()
    ensures { Ends }
{}
