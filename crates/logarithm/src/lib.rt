// Logarithm and power to base 2: Log2 and Pow2 of TS 26.073, their tables lent.
#![tactic(auto)]

ghost use Rattle.std.specs.Prelude.{◌≡◌, pos, ◌≤ℤ◌};
ghost use Rattle.logarithm.specs.Log2.{log2};
ghost use Rattle.logarithm.specs.Pow2.{pow2};

use basicop::{extract_h, interpolate, l_mult, l_shl, l_shr, l_shr_r, locate, norm_l, sub};

/// A logarithm to base 2: exponent, and fraction (Q15).
#[derive(Clone, Copy)]
pub struct Logarithm {
    pub exponent: i16,
    pub fraction: i16,
}

/// Zero or less gives 0.
pub fn log2(value: i32, table: &[i16; 33]) -> Logarithm
    ensures { result ≡ log2 table.now value }
{
    if value <= 0 {
        return Logarithm {
            exponent: 0,
            fraction: 0,
        };
    }
    let n = norm_l(value);
    let normalized = l_shl(value, n);
    let between = interpolate(table, locate(l_shr(normalized, 9), 32));
    Logarithm {
        exponent: sub(30, n),
        fraction: extract_h(between),
    }
}

/// A fraction is not negative: the caller's is a half of L_Extract.
pub fn pow2(exponent: i16, fraction: i16, table: &[i16; 33]) -> i32
    requires { pos 0 ≤ℤ fraction }
    ensures { result ≡ pow2 table.now exponent fraction }
{
    let between = interpolate(table, locate(l_mult(fraction, 32), 0));
    l_shr_r(between, sub(30, exponent))
}
