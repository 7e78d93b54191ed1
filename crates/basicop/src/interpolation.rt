// The way between two entries of a table, as Inv_sqrt, Log2 and Pow2 go it.
ghost use Rattle.std.specs.Prelude.{◌≡◌, pos, ◌+ℤ◌, length, ◌≤ℤ◌, ◌<ℤ◌};
ghost use Rattle.basicop.specs.Interpolation.{position_of, interpolated};

use crate::Position;
use crate::arithmetic::{l_msu, sub};
use crate::extraction::l_deposit_h;
use crate::oper_32b::l_extract;

/// The high word less a base, and the low 15 bits of x >> 1: L_Extract's halves are the two.
pub fn locate(x: i32, base: i16) -> Position
    ensures { result ≡ position_of base x }
{
    let halves = l_extract(x);
    Position {
        index: sub(halves.hi, base),
        fraction: halves.lo,
    }
}

/// From an entry to the next, in a table of any length. The caller shows that the position has an entry after it.
pub fn interpolate(table: &[i16], position: Position) -> i32
    requires { (pos 0 ≤ℤ position.index) × ((position.index +ℤ pos 1) <ℤ pos (length table.now)) }
    ensures { result ≡ interpolated table.now position }
{
    let i = position.index as usize;
    let (low, next) = (table[i], table[i + 1]);
    l_msu(l_deposit_h(low), sub(low, next), position.fraction)
}
