// The subject: definitions in specs/, theorems in proofs/, each theorem named by a function's contract.
#![tactic(auto)]

pub mod figures;

ghost use Rattle.model.specs.Examples.{Limits, Worked, WorkedVerdicts};
ghost use Rattle.model.specs.FigureExamples.{WorkedFigures};
ghost use Rattle.model.specs.Rehearsals.{Verdicts};
ghost use Rattle.model.specs.RunExamples.{WorkedRuns};

// A rehearsal's answer is given exactly where what it says is so.
pub fn verdicts()
    ensures { Verdicts }
{}

// The worked examples of plans and of figures hold of the definitions.
pub fn worked_examples()
    ensures { Worked × WorkedFigures }
{}

// What is just within the limits of a problem, and what is just beyond.
pub fn worked_limits()
    ensures { Limits }
{}

// What can be reached, and verdicts by number.
pub fn worked_verdicts()
    ensures { WorkedVerdicts }
{}

// A session's run in which the fact that fed two actions falls away and comes back.
pub fn worked_runs()
    ensures { WorkedRuns }
{}
