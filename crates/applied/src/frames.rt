// The frame calls of each kind, computed and applied.
ghost use Rattle.applied.specs.Examples.{Example, RefusedTrace};
ghost use Rattle.applied.specs.Divisions.{DivisionsApplied};
ghost use Rattle.applied.specs.Refusals.{FrameOrder, Places, FieldPlaces, GapPlaces, RefusalsApplied};
ghost use Rattle.applied.specs.Indexed.{IndexedValues, IndexedApplied, IndexOrder, IndexedList};
ghost use Rattle.applied.specs.Erased.{ErasedValues, ErasedOrder, ErasedApplied, HeldIndexed, ErasedList};
ghost use Rattle.applied.specs.Held.{HeldGains, HeldIndex, LastLags};
ghost use Rattle.applied.specs.CallList.{FirstCall, SecondCall, AfterList};
ghost use Rattle.applied.specs.Retries.{IndexRetries, ErasedRetries};
ghost use Rattle.applied.specs.Calls.{CallsApplied};
ghost use Rattle.applied.specs.Promised.{FrameAccepted, IndexAccepted, ErasedAccepted, OwnApplied, IndexGainsApplied, SharpeningApplied, AnswersApplied, NextApplied};

/// A call with retried subframes, and a refused one.
pub fn computed_call()
    ensures example { Example }
    ensures refused { RefusedTrace }
    ensures divisions { DivisionsApplied }
{}

/// The order of a frame sheet's refusals, and their places.
pub fn refused_frames()
    ensures order { FrameOrder }
    ensures places { Places }
    ensures fields { FieldPlaces }
    ensures gaps { GapPlaces }
    ensures applied { RefusalsApplied }
{}

/// A frame of an index sheet.
pub fn index_frames()
    ensures values { IndexedValues }
    ensures applied { IndexedApplied }
    ensures order { IndexOrder }
    ensures list { IndexedList }
{}

/// Erased frames, and frames after one.
pub fn erased_frames()
    ensures values { ErasedValues }
    ensures order { ErasedOrder }
    ensures applied { ErasedApplied }
    ensures held { HeldIndexed }
    ensures list { ErasedList }
{}

/// Gains that are held, and lags at the end of their range.
pub fn held_frames()
    ensures gains { HeldGains }
    ensures index { HeldIndex }
    ensures lags { LastLags }
{}

/// The theorem over lists of calls, at calls of each kind.
pub fn call_lists()
    ensures first { FirstCall }
    ensures second { SecondCall }
    ensures after { AfterList }
    ensures index { IndexRetries }
    ensures erased { ErasedRetries }
    ensures laws { CallsApplied }
{}

/// What an accepted call of each kind has shown.
pub fn accepted_calls()
    ensures frame { FrameAccepted }
    ensures index { IndexAccepted }
    ensures erased { ErasedAccepted }
{}

/// What is promised of the gains and the answers of each kind.
pub fn promises()
    ensures own { OwnApplied }
    ensures index { IndexGainsApplied }
    ensures sharpening { SharpeningApplied }
    ensures answers { AnswersApplied }
    ensures next { NextApplied }
{}
