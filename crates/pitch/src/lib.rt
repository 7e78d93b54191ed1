// Lags: from pitch indices, Dec_lag3 of TS 26.073, and of an erased frame.
#![tactic(auto)]

ghost use Rattle.std.specs.Prelude.{◌≡◌, ◌≤◌, pos};
ghost use Rattle.pitch.specs.Lag.{absolute, relative, concealed_lag, lag_min, thirds_of, lag_of};

/// A part of a sample, in thirds.
#[derive(Clone, Copy, PartialEq, Eq, Debug)]
pub enum Fraction {
    MinusThird,
    Zero,
    PlusThird,
}

/// A lag of whole samples and a part of one.
#[derive(Clone, Copy, PartialEq, Eq, Debug)]
pub struct PitchLag {
    pub samples: u16,
    pub fraction: Fraction,
}

/// What an erased frame's lags go by: the lag of the subframe before.
#[derive(Clone, Copy)]
pub struct PitchDecoder {
    pub previous: PitchLag,
}

impl Fraction {
    /// -1, 0 or 1.
    pub fn thirds(self) -> i16
        ensures { result ≡ thirds_of self }
    {
        match self {
            Fraction::MinusThird => -1,
            Fraction::Zero => 0,
            Fraction::PlusThird => 1,
        }
    }
}

// the fraction of a fractional index
#[tactic(auto, using(crate::proofs::Lags::thirds_is))]
fn fraction_of(index: u8) -> Fraction
    ensures { thirds_of result ≡ (relative (pos index) (pos 0)).thirds }
{
    match index % 3 {
        0 => Fraction::PlusThird,
        1 => Fraction::MinusThird,
        _ => Fraction::Zero,
    }
}

// the least lag that a relative index gives, after the lag `previous`
#[tactic(auto, using(crate::proofs::Lags::lag_min_is))]
fn least(previous: u16) -> u16
    ensures value { pos result ≡ lag_min (pos previous) }
    ensures range { (20 ≤ result) × (result ≤ 134) }
{
    previous.saturating_sub(5).clamp(20, 134)
}

impl PitchLag {
    /// Subframes 0 and 2. Every index has a lag; which are sent is the frame call's business.
    #[tactic(auto, using(crate::proofs::Lags::absolute_below, crate::proofs::Lags::absolute_from))]
    pub fn from_absolute(index: u8) -> PitchLag
        ensures { lag_of result ≡ absolute (pos index) }
    {
        if index < 197 {
            PitchLag {
                samples: (index as u16 + 2) / 3 + 19,
                fraction: fraction_of(index),
            }
        } else {
            PitchLag {
                samples: index as u16 - 112,
                fraction: Fraction::Zero,
            }
        }
    }

    /// Subframes 1 and 3, after the lag of the subframe before.
    pub fn from_relative(index: u8, previous: PitchLag) -> PitchLag
        ensures { lag_of result ≡ relative (pos index) (lag_of previous).samples }
    {
        PitchLag {
            samples: least(previous.samples) + (index as u16 + 2) / 3 - 1,
            fraction: fraction_of(index),
        }
    }
}

impl PitchDecoder {
    /// A subframe of an erased frame: a sample more than the lag before, not raised from 143 on; fraction 0.
    pub fn conceal(self) -> PitchLag
        ensures { lag_of result ≡ concealed_lag (lag_of self.previous).samples }
    {
        let PitchDecoder { previous } = self;
        let short = previous.samples < 143;
        PitchLag {
            samples: if short {
                previous.samples + 1
            } else {
                previous.samples
            },
            fraction: Fraction::Zero,
        }
    }
}
