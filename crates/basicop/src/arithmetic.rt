// Sums, differences, products and the quotient.
#![tactic(auto, unfolding(crate::specs::Ops::add, crate::specs::Ops::sub, crate::specs::Ops::l_add, crate::specs::Ops::l_sub))]

ghost use Rattle.std.specs.Prelude.{◌≡◌, pos, ◌≤ℤ◌, ◌<ℤ◌};
ghost use Rattle.basicop.specs.Ops.{add, sub, mult, l_add, l_sub, l_mult, l_mac, l_msu, div_s};

use crate::saturation::{clamp16, clamp32};

pub fn add(a: i16, b: i16) -> i16
    ensures { result ≡ add a b }
{
    clamp16((a as i32) + (b as i32))
}

pub fn sub(a: i16, b: i16) -> i16
    ensures { result ≡ sub a b }
{
    clamp16((a as i32) - (b as i32))
}

pub fn mult(a: i16, b: i16) -> i16
    ensures { result ≡ mult a b }
{
    clamp16(((a as i32) * (b as i32)) >> 15)
}

/// n / d as a fraction of fifteen bits
pub fn div_s(n: i16, d: i16) -> i16
    requires { (pos 0 ≤ℤ n) × (n ≤ℤ d) × (pos 0 <ℤ d) }
    ensures { result ≡ (div_s n d).value }
{
    clamp16((n as i32) * 32768 / (d as i32))
}

pub fn l_add(x: i32, y: i32) -> i32
    ensures { result ≡ l_add x y }
{
    clamp32((x as i64) + (y as i64))
}

pub fn l_sub(x: i32, y: i32) -> i32
    ensures { result ≡ l_sub x y }
{
    clamp32((x as i64) - (y as i64))
}

pub fn l_mult(a: i16, b: i16) -> i32
    ensures { result ≡ l_mult a b }
{
    clamp32(2 * ((a as i64) * (b as i64)))
}

pub fn l_mac(s: i32, a: i16, b: i16) -> i32
    ensures { result ≡ l_mac s a b }
{
    l_add(s, l_mult(a, b))
}

pub fn l_msu(s: i32, a: i16, b: i16) -> i32
    ensures { result ≡ l_msu s a b }
{
    l_sub(s, l_mult(a, b))
}
