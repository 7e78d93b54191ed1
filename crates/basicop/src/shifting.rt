// Shifts. A negative count is the other shift.
ghost use Rattle.std.specs.Prelude.{◌≡◌, min, ◌^◌, pos, ◌*ℤ◌};
ghost use Rattle.std.specs.Int.{w32};
ghost use Rattle.basicop.specs.Ops.{clamp, asr, shl, shr, l_shl, l_shr, l_shr_r};

use crate::saturation::{clamp16, clamp32};

// 2 ^ n, at most 2 ^ 31
fn pow2(n: u16) -> i64
    ensures { result ≡ pos (2 ^ min n 31) }
{
    1 << n.min(31)
}

// x * 2 ^ n, held to the range of an i32
fn left(x: i32, n: u16) -> i32
    ensures { result ≡ clamp w32 (x *ℤ pos (2 ^ n)) }
{
    clamp32((x as i64) * pow2(n))
}

// x >> n
fn right(x: i32, n: u16) -> i32
    ensures { result ≡ asr x n }
{
    x >> n.min(31)
}

#[tactic(auto, using(crate::proofs::Calls::read_back, crate::proofs::Counts::l_shl_left, crate::proofs::Counts::l_shl_right, std::proofs::lemmas::Int::ints))]
pub fn l_shl(x: i32, n: i16) -> i32
    ensures { result ≡ l_shl x n }
{
    let count = n.unsigned_abs();
    if n < 0 {
        right(x, count)
    } else {
        left(x, count)
    }
}

#[tactic(auto, using(crate::proofs::Calls::read_back, crate::proofs::Counts::l_shr_left, std::proofs::lemmas::Int::ints))]
pub fn l_shr(x: i32, n: i16) -> i32
    ensures { result ≡ l_shr x n }
{
    let count = n.unsigned_abs();
    if n < 0 {
        left(x, count)
    } else {
        right(x, count)
    }
}

#[tactic(auto, using(crate::proofs::Calls::read_back, crate::proofs::Counts::shl_is))]
pub fn shl(x: i16, n: i16) -> i16
    ensures { result ≡ shl x n }
{
    clamp16(l_shl(x as i32, n))
}

#[tactic(auto, using(crate::proofs::Calls::read_back, crate::proofs::Counts::shr_is))]
pub fn shr(x: i16, n: i16) -> i16
    ensures { result ≡ shr x n }
{
    clamp16(l_shr(x as i32, n))
}

/// The bit that is added is x >> (n - 1) less twice x >> n.
pub fn l_shr_r(x: i32, n: i16) -> i32
    ensures { result ≡ l_shr_r x n }
{
    if n <= 0 {
        l_shr(x, n)
    } else if n < 32 {
        let count = n.unsigned_abs();
        right(x, count - 1) - right(x, count)
    } else {
        0
    }
}
