// The interpolation filter of Pred_lt_3or6, as twenty taps for each of the three phases.
ghost use Rattle.std.specs.Prelude.{◌≡◌, ◌<◌, ◌≤◌, pos};
ghost use Rattle.pitch.specs.Lag.{lag_of};
ghost use Rattle.adaptive.specs.Predict.{phase, start};
ghost use Rattle.adaptive.specs.Inner.{tap, phase_taps, all_taps};

use pitch::{Fraction, PitchLag};
use std::array;

// inter_6, Q15: sixths of a sample.
const COEFFICIENTS: [i16; 61] = [
    29443, 28346, 25207, 20449, 14701, 8693, 3143, -1352, -4402, -5865, -5850, -4673, -2783, -672,
    1211, 2536, 3130, 2991, 2259, 1170, 0, -1001, -1652, -1868, -1666, -1147, -464, 218, 756, 1060,
    1099, 904, 550, 135, -245, -514, -634, -602, -451, -231, 0, 191, 308, 340, 296, 198, 78, -36,
    -120, -163, -165, -132, -79, -19, 34, 73, 91, 89, 70, 38, 0,
];

/// The fraction negated, in sixths, and 6 more where that is below 0.
pub fn phase_of(lag: PitchLag) -> usize
    ensures value { pos result ≡ phase (lag_of lag) }
    ensures range { result ≤ 4 }
{
    match lag.fraction {
        Fraction::MinusThird => 2,
        Fraction::Zero => 0,
        Fraction::PlusThird => 4,
    }
}

/// The place of the first sample to the left: one earlier where 6 was added.
pub fn start_of(lag: PitchLag) -> usize
    requires { lag.samples ≤ 144 }
    ensures { pos result ≡ start (lag_of lag) }
{
    let whole = 154 - (lag.samples as usize);
    match lag.fraction {
        Fraction::MinusThird | Fraction::Zero => whole,
        Fraction::PlusThird => whole - 1,
    }
}

// Tap `j` of a phase, in the order of the samples: ten to the left, from the furthest on, and ten to the right.
fn tap(phase: usize, j: usize) -> i16
    requires { (phase ≤ 6) × (j < 20) }
    ensures { result ≡ tap phase j }
{
    if j < 10 {
        COEFFICIENTS[phase + 6 * (9 - j)]
    } else {
        COEFFICIENTS[6 - phase + 6 * (j - 10)]
    }
}

// The twenty taps of a phase.
fn phase_taps(phase: usize) -> [i16; 20]
    requires { phase ≤ 4 }
    ensures { result ≡ phase_taps phase }
{
    array::from_fn(|j| tap(phase, j))
}

/// Those of the phases 0, 2 and 4: constants, which the compiler works out.
pub fn all_taps() -> [[i16; 20]; 3]
    ensures { result ≡ all_taps }
{
    [phase_taps(0), phase_taps(2), phase_taps(4)]
}
