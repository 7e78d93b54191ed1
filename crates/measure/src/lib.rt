// The machine of whole numbers, and what holds over every list of calls, measured by it.
#![tactic(auto)]

ghost use Rattle.measure.specs.CallList.{EveryListAsMeasured};

/// What holds over every list of calls, from any accepted state.
pub fn laws()
    ensures { EveryListAsMeasured }
{}
