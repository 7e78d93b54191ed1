// The four coefficient rows of a frame: Int_lpc_1to3, Lsp_Az and Get_lsp_pol of TS 26.073.
#![tactic(auto)]

ghost use Rattle.std.specs.Prelude.{◌≡◌, ◌+◌, ◌-◌, ◌<◌, ◌≤◌, take};
ghost use Rattle.lpc.specs.Rows.{blend1, blend2, raised_from, raised, polynomial, every_second, coefficient, row, row_of, row_list, rows_of};

use basicop::{
    Q15, add, extract_l, l_add, l_extract, l_msu, l_shl, l_shr_r, l_sub, mpy_32_16, shr, sub,
};
use std::array;

/// Four rows of eleven coefficients (Q12), one for each subframe.
#[derive(Clone, Copy, PartialEq, Eq, Debug, Default)]
pub struct Rows {
    pub a: [i16; 11],
    pub b: [i16; 11],
    pub c: [i16; 11],
    pub d: [i16; 11],
}

// The rows in the order of the subframes.
impl From<Rows> for [[i16; 11]; 4] {
    ghost from_gives = { λ rows list. list ≡ row_list rows };

    fn from(rows: Rows) -> [[i16; 11]; 4] {
        let Rows { a, b, c, d } = rows;
        [a, b, c, d]
    }
}

// a quarter of one LSP and three quarters of the other: subframe 2, and subframe 0 with the two exchanged
fn quarters(one: i16, three: i16) -> i16
    ensures { result ≡ blend2 one three }
{
    add(shr(one, 2), sub(three, shr(three, 2)))
}

// half of each
fn halves(old: i16, new: i16) -> i16
    ensures { result ≡ blend1 old new }
{
    add(shr(old, 1), shr(new, 1))
}

// a coefficient of the next degree, from the one at its place and the two before it
fn raised_from(f: i32, before: i32, second: i32, root: Q15) -> i32
    ensures { result ≡ raised_from f before second root.0 }
{
    l_sub(
        l_add(f, second),
        l_shl(mpy_32_16(l_extract(before), root.0), 1),
    )
}

// From the polynomial of one degree less to that of `degree`, by the root. Above the degree the array holds anything.
// `polynomial` shows the bounds.
fn raise(f: [i32; 6], root: Q15, degree: usize) -> [i32; 6]
    requires { (2 ≤ degree) × (degree ≤ 5) }
    ensures { take (degree + 1) result ≡ raised (take degree f) root.0 }
{
    let mut e = f;
    e[degree] = f[degree - 2];
    let mut r = e;
    r[1] = l_msu(e[1], root.0, 512);
    for j in 2..degree + 1 {
        r[j] = raised_from(e[j], e[j - 1], e[j - 2], root);
    }
    r
}

// The polynomial of the degree over the first roots. Above the degree the array holds anything.
// `convert` shows the bounds, and at each lower degree the call itself.
fn polynomial(roots: [i16; 5], degree: usize) -> [i32; 6]
    requires { (1 ≤ degree) × (degree ≤ 5) }
    ensures { take (degree + 1) result ≡ polynomial roots (degree - 1) }
{
    if degree == 1 {
        return [16777216, l_msu(0, roots[0], 512), 0, 0, 0, 0];
    }
    raise(
        polynomial(roots, degree - 1),
        Q15(roots[degree - 1]),
        degree,
    )
}

/// A coefficient (Q12) of a sum (Q24): rounded, and its low 16 bits kept.
pub fn rounded_coefficient(value: i32) -> i16
    ensures { result ≡ coefficient value }
{
    extract_l(l_shr_r(value, 13))
}

// The eleven coefficients from the two polynomials.
fn row(f: [i32; 6], g: [i32; 6]) -> [i16; 11]
    ensures { result ≡ row f g }
{
    let mut r = [4096i16; 11];
    for k in 0..5 {
        let s = l_add(f[k + 1], f[k]);
        let d = l_sub(g[k + 1], g[k]);
        r[k + 1] = rounded_coefficient(l_add(s, d));
        r[10 - k] = rounded_coefficient(l_sub(s, d));
    }
    r
}

// Every second LSP, from the one at `offset` on.
fn every_second(lsp: [i16; 10], offset: usize) -> [i16; 5]
    requires { offset < 2 }
    ensures { result ≡ every_second offset lsp }
{
    array::from_fn(|k| lsp[offset + 2 * k])
}

/// Lsp_Az: a row from ten LSPs.
pub fn convert(lsp: [i16; 10]) -> [i16; 11]
    ensures { result ≡ row_of lsp }
{
    let f = polynomial(every_second(lsp, 0), 5);
    let g = polynomial(every_second(lsp, 1), 5);
    row(f, g)
}

/// Int_lpc_1to3: the four rows of a frame, from the LSPs of the frame before and its own.
pub fn interpolate(previous_lsp: [i16; 10], lsp: [i16; 10]) -> Rows
    ensures { result ≡ rows_of previous_lsp lsp }
{
    let a = convert(array::from_fn(|k| quarters(lsp[k], previous_lsp[k])));
    let b = convert(array::from_fn(|k| halves(previous_lsp[k], lsp[k])));
    let c = convert(array::from_fn(|k| quarters(previous_lsp[k], lsp[k])));
    let d = convert(lsp);
    Rows { a, b, c, d }
}
