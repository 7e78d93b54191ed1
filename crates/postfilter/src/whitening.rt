// Weight_Ai and Residu of TS 26.073.
ghost use Rattle.std.specs.Prelude.{◌≡◌, ◌++◌};
ghost use Rattle.postfilter.specs.Weight.{weighted};
ghost use Rattle.postfilter.specs.Residual.{residual_sum, residual_at, residual};

use basicop::{l_mult, l_shl, mac, round};
use copy::{joined, window};
use std::array;
use synthesis::Row;

// ---- Weight_Ai
/// Each coefficient but the first by its factor.
pub fn weight(coefficients: [i16; 11], factors: &[i16; 10]) -> [i16; 11]
    ensures { result ≡ weighted coefficients factors.now }
{
    let weighted: [i16; 10] = array::from_fn(|i| round(l_mult(coefficients[i + 1], factors[i])));
    joined(&coefficients[..1], &weighted)
}

// ---- Residu
// The sum for an input, the last of eleven. No step of a light row can clamp.
fn residual_sum(row: &Row, x: &[i16; 11]) -> i32
    ensures { result ≡ residual_sum row.now.coefficients x.now 10 }
{
    let a = &row.coefficients;
    let light = row.light;
    let mut s = mac(0, x[10], a[0], light);
    for (c, v) in a[1..].iter().zip(x[..10].iter().rev()) {
        s = mac(s, *c, *v, light);
    }
    s
}

// The residual at that input.
#[tactic(auto, using(basicop::proofs::Calls::read_back))]
fn residual_at(row: &Row, x: &[i16; 11]) -> i16
    ensures { result ≡ residual_at row.now.coefficients x.now 10 }
{
    round(l_shl(residual_sum(row, x), 3))
}

/// Residu: the residual of forty samples, after the ten before them.
pub fn residual(numerator: [i16; 11], history: [i16; 10], samples: [i16; 40]) -> [i16; 40]
    ensures { result ≡ residual numerator (history ++ samples) }
{
    let row = Row::new(numerator);
    let x: [i16; 50] = joined(&history, &samples);
    array::from_fn(|n| residual_at(&row, window(&x, n)))
}
