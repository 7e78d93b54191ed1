// What is shown of the definitions alone: nothing runs.
ghost use Rattle.std.specs.Prelude.{◌≡◌, List, ℤ, length};
ghost use Rattle.decoder.specs.Subframe.{SynthesisInput};
ghost use Rattle.decoder.specs.Retry.{Retry};

/// The retries of a subframe, by the whole numbers.
pub fn retries()
    ensures { (f : SynthesisInput) (history past : List ℤ) → length history ≡ 10 → Retry f history past }
{}
