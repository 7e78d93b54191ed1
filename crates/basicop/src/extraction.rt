// Between 16 and 32 bits.
ghost use Rattle.std.specs.Prelude.{◌≡◌, pos};
ghost use Rattle.basicop.specs.Ops.{mod_z, extract_h, extract_l, round, l_deposit_h};

use crate::arithmetic::l_add;

#[tactic(auto, using(crate::proofs::Calls::read_back, crate::proofs::Shift::sfits_shr_z), unfolding(crate::specs::Ops::asr))]
pub fn extract_h(x: i32) -> i16
    ensures { result ≡ extract_h x }
{
    (x >> 16) as i16
}

// the low 16 bits of x, as a number from 0
fn residue(x: i32) -> i32
    ensures { result ≡ pos (mod_z x 65536) }
{
    x & 0xffff
}

/// The low 16 bits of x, read as signed: Rust's `x as i16`.
pub fn extract_l(x: i32) -> i16
    ensures { result ≡ extract_l x }
{
    (residue(x) as u16).cast_signed()
}

pub fn round(x: i32) -> i16
    ensures { result ≡ round x }
{
    extract_h(l_add(x, 32768))
}

#[tactic(auto, using(crate::proofs::Calls::read_back, crate::proofs::Range::sfits_times), unfolding(crate::specs::Ops::l_deposit_h))]
pub fn l_deposit_h(a: i16) -> i32
    ensures { result ≡ l_deposit_h a }
{
    (a as i32) * 65536
}
