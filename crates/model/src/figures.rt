// The theory of figures: one function for each theorem.
ghost use Rattle.model.specs.Figures.{Compares, OneTable, BothLawful, Parity};
ghost use Rattle.model.specs.Heuristics.{Heuristics, Admissible};
ghost use Rattle.model.specs.Runs.{FreshStart};
ghost use Rattle.model.specs.Settling.{StepsKeep, Settlings, SettlingEnds, Local, Moved};

// A table at or above what the equations make of it is at or above every table that is at or below.
pub fn compares()
    ensures { Compares }
{}

// For every lawful rule exactly one table solves the equations.
pub fn one_table()
    ensures { OneTable }
{}

// The additive rule and the max rule keep the laws of a cost rule.
pub fn both_lawful()
    ensures { BothLawful }
{}

// Facts have even figures and actions odd ones, so the goal figure is an exact half.
pub fn parity()
    ensures { Parity }
{}

// A step of settling lowers no key and moves no final item.
pub fn steps_keep()
    ensures { StepsKeep }
{}

// A settling has at most two steps for each item, goes on while an item is inconsistent, and its rows are a docket.
pub fn settlings()
    ensures { Settlings }
{}

// From any figures some settling leads to the one table.
pub fn settling_ends()
    ensures { SettlingEnds }
{}

// Only the readers of a changed item can have another right-hand side.
pub fn local_changes()
    ensures { Local }
{}

// Where the standing facts change, only those facts have another equation.
pub fn moved_facts()
    ensures { Moved }
{}

// h_add and h_max are determined by their equations, and the goal figures are their values, cut at the ceiling.
pub fn heuristics_agree()
    ensures { Heuristics }
{}

// The max rule's goal figure is at most the length of every plan, and none only where there is no plan.
pub fn admissible()
    ensures { Admissible }
{}

// A settled session tells what a session tells that is opened on the facts now standing.
pub fn fresh_start()
    ensures { FreshStart }
{}
