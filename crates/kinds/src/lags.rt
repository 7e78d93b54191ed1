// The lags of a sheet, by its four pitch indices, numbers 10..13 of a frame sheet and of an index sheet; and those of an erased frame.
ghost use Rattle.std.specs.Prelude.{◌≡◌, Ok, ◌+◌, ◌<◌, ◌≤◌, pos, ◌≤ℤ◌, length, List, [], ◌∷◌};
ghost use Rattle.lists.specs.Lists.{at};
ghost use Rattle.outcome.specs.Checks.{first_met};
ghost use Rattle.pitch.specs.Lag.{lag_of};
ghost use Rattle.kinds.specs.Sheet.{lags_of, concealed_lags};
ghost use Rattle.kinds.specs.Checks.{pitch_checks};

use pitch::{Fraction, PitchDecoder, PitchLag};

// Of the four subframes, each in 19..=144.
#[derive(Clone, Copy)]
pub struct Lags {
    pub a: PitchLag,
    pub b: PitchLag,
    pub c: PitchLag,
    pub d: PitchLag,
    pub ghost first: { (19 ≤ a.samples) × (a.samples ≤ 144) },
    pub ghost second: { (19 ≤ b.samples) × (b.samples ≤ 144) },
    pub ghost third: { (19 ≤ c.samples) × (c.samples ≤ 144) },
    pub ghost fourth: { (19 ≤ d.samples) × (d.samples ≤ 144) },
}

// The pitch index of a subframe, as a byte.
fn pitch_index(sheet: &[i16], subframe: usize) -> u8
    requires accepted { first_met (pitch_checks sheet.now) ≡ Ok tt }
    requires place { (subframe < 4) × (14 ≤ length sheet.now) }
    ensures { pos result ≡ at sheet.now (10 + subframe) }
{
    sheet[10 + subframe] as u8
}

// The lags of an erased frame after the last lag, each by the one before.
pub fn conceal_lags(last_lag: i16) -> Lags
    requires { (pos 19 ≤ℤ last_lag) × (last_lag ≤ℤ pos 144) }
    ensures { lag_of result.a ∷ lag_of result.b ∷ lag_of result.c ∷ lag_of result.d ∷ [] ≡ concealed_lags 4 last_lag }
{
    let last = PitchLag {
        samples: last_lag as u16,
        fraction: Fraction::Zero,
    };
    let a = PitchDecoder { previous: last }.conceal();
    let b = PitchDecoder { previous: a }.conceal();
    let c = PitchDecoder { previous: b }.conceal();
    let d = PitchDecoder { previous: c }.conceal();
    Lags { a, b, c, d }
}

// The lags of subframes 1 and 3 go by the one before.
pub fn decode_lags(sheet: &[i16]) -> Lags
    requires accepted { first_met (pitch_checks sheet.now) ≡ Ok tt }
    requires count { 14 ≤ length sheet.now }
    ensures { lag_of result.a ∷ lag_of result.b ∷ lag_of result.c ∷ lag_of result.d ∷ [] ≡ lags_of sheet.now }
{
    let a = PitchLag::from_absolute(pitch_index(sheet, 0));
    let b = PitchLag::from_relative(pitch_index(sheet, 1), a);
    let c = PitchLag::from_absolute(pitch_index(sheet, 2));
    let d = PitchLag::from_relative(pitch_index(sheet, 3), c);
    Lags { a, b, c, d }
}
