// The stages, computed and applied.
ghost use Rattle.applied.specs.Starred.{Hold, starred, StarredApplied};
ghost use Rattle.applied.specs.Synthesis.{AgreeApplied, RetryApplied};
ghost use Rattle.applied.specs.Postfilter.{TiltApplied, FrameApplied};
ghost use Rattle.applied.specs.Gains.{GainValues, RefusedGains, QuietEnergies, GainsApplied, KeptApplied};

/// The starred values of docs/BENCH.md, "Values to hold".
pub fn starred_values()
    ensures hold { Hold starred }
    ensures applied { StarredApplied }
{}

/// The synthesis filter and the retry, at two excitations.
pub fn syntheses()
    ensures agree { AgreeApplied }
    ensures retry { RetryApplied }
{}

/// A tilt that divides, and a frame of four.
pub fn tilts()
    ensures tilt { TiltApplied }
    ensures frame { FrameApplied }
{}

/// Gains from their index.
pub fn gain_indices()
    ensures values { GainValues }
    ensures refused { RefusedGains }
    ensures energies { QuietEnergies }
    ensures applied { GainsApplied }
    ensures kept { KeptApplied }
{}
