// The basic operators of TS 26.073, each equal to its definition in specs/Ops.antt, under the standard's names in lower case.
#![tactic(auto)]

ghost use Rattle.std.specs.Prelude.{◌≡◌, true, pos};
ghost use Rattle.basicop.specs.Ops.{shl, quartered, l_mac};
ghost use Rattle.basicop.specs.Inner.{Unclamped};

use shifting::shl;

mod arithmetic;
mod extraction;
mod interpolation;
mod normalization;
mod oper_32b;
mod saturation;
mod shifting;

// What other crates call.
pub use arithmetic::{add, div_s, l_add, l_mac, l_msu, l_mult, l_sub, mult, sub};
pub use extraction::{extract_h, extract_l, round};
pub use interpolation::{interpolate, locate};
pub use normalization::norm_l;
pub use oper_32b::{l_extract, mpy_32_16};
pub use saturation::clamp32;
pub use shifting::{l_shl, l_shr, l_shr_r, shr};

// A number that is handed on between functions has its scaling in its type: Qn is scaled by 2 ^ n.

/// Pitch gain and sharpening.
#[derive(Clone, Copy, Default)]
pub struct Q14(pub i16);

/// Code gain.
#[derive(Clone, Copy)]
pub struct Q1(pub i16);

/// Pitch gain and code gain of a subframe.
#[derive(Clone, Copy)]
pub struct Gains {
    pub pitch: Q14,
    pub code: Q1,
}

/// The innovation of a subframe, forty numbers.
#[derive(Clone, Copy)]
pub struct Q13(pub [i16; 40]);

/// The energy of a gain row, as it enters the past energies.
#[derive(Clone, Copy)]
pub struct Q10(pub i16);

/// Gain between two energies, and the correction of a predicted gain.
#[derive(Clone, Copy)]
pub struct Q12(pub i16);

/// Sharpening doubled, the tilt, an LSP.
#[derive(Clone, Copy)]
pub struct Q15(pub i16);

/// A 32-bit number in two halves, the standard's double precision format: hi * 65536 + lo * 2.
#[derive(Clone, Copy)]
pub struct Dpf {
    pub hi: i16,
    pub lo: i16,
}

/// Where a number lies in a table: the index of the entry before it, and the fraction (Q15) of the way to the next.
#[derive(Clone, Copy)]
pub struct Position {
    pub index: i16,
    pub fraction: i16,
}

/// L_mac by a plain product and sum where the caller has shown that no step clamps (`plain`), or by clamped steps.
pub fn mac(s: i32, a: i16, b: i16, plain: bool) -> i32
    requires { plain ≡ true → Unclamped s a b }
    ensures { result ≡ l_mac s a b }
{
    if plain {
        s + 2 * ((a as i32) * (b as i32))
    } else {
        l_mac(s, a, b)
    }
}

/// Quarters each sample, >> 2, where it stands.
pub fn quarter(samples: &mut [i16])
    ensures { samples.new ≡ quartered samples.old }
{
    for sample in samples {
        *sample = shr(*sample, 2);
    }
}

/// The samples, each >> 2.
pub fn quartered<const N: usize>(mut samples: [i16; N]) -> [i16; N]
    ensures { result ≡ quartered samples.entry }
{
    quarter(&mut samples);
    samples
}

/// The sharpening as pitch sharpening and enhancement take it.
pub fn doubled(sharpening: Q14) -> Q15
    ensures { result.0 ≡ shl sharpening.0 (pos 1) }
{
    Q15(shl(sharpening.0, 1))
}
