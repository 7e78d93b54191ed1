// Lists of calls: definitions and theorems, and what the theorems say as contracts.
#![tactic(auto)]

ghost use Rattle.calls.specs.Calls.{NextAccepted, NextWellFormed, AnswersTraced};

/// What a call leaves of a well-formed state, and that it gives a projection of its trace.
pub fn laws()
    ensures accepted { NextAccepted }
    ensures well_formed { NextWellFormed }
    ensures traced { AnswersTraced }
{}
