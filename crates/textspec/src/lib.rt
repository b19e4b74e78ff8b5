// The task text: its definitions in specs/, its theorems in proofs/, each theorem named by a function's contract.
#![tactic(auto)]

pub mod due;

ghost use Rattle.textspec.specs.Texts.{OneProblem, OneFault, NotBoth, EachAccepted, StatedOrFaulty};

// A text states at most one problem.
pub fn one_problem()
    ensures { OneProblem }
{}

// A text has at most one first fault.
pub fn one_fault()
    ensures { OneFault }
{}

// No text that states a problem has a fault.
pub fn not_both()
    ensures { NotBoth }
{}

// Every lawful problem has a text, which states it and has no fault.
pub fn each_accepted()
    ensures { EachAccepted }
{}

// Every text states a problem or has a first fault.
pub fn stated_or_faulty()
    ensures { StatedOrFaulty }
{}
