// 32 bits as two halves, the standard's oper_32b.
ghost use Rattle.std.specs.Prelude.{◌≡◌};
ghost use Rattle.basicop.specs.Ops.{l_extract, mpy_32_16};

use crate::Dpf;
use crate::arithmetic::{l_mac, l_mult, mult};
use crate::extraction::extract_h;

/// The low half needs no clamp: it is x >> 1 without the bits of the high half.
pub fn l_extract(x: i32) -> Dpf
    ensures { result ≡ l_extract x }
{
    let hi = extract_h(x);
    Dpf {
        hi,
        lo: ((x >> 1) - (hi as i32) * 32768) as i16,
    }
}

#[tactic(auto, using(crate::proofs::Calls::read_back), unfolding(crate::specs::Ops::mpy_32_16))]
pub fn mpy_32_16(x: Dpf, n: i16) -> i32
    ensures { result ≡ mpy_32_16 x n }
{
    l_mac(l_mult(x.hi, n), mult(x.lo, n), 1)
}
