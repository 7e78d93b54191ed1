// The first pass, in whole numbers. It ends at the first sample with a number that leaves 32 bits.
ghost use Rattle.std.specs.Prelude.{◌≡◌, true, false, ◌*◌, ◌≤◌, pos, nat_abs, ◌+ℤ◌, ◌*ℤ◌};
ghost use Rattle.std.specs.Option.{SomeIff};
ghost use Rattle.std.specs.Int.RustNames.{FitsSigned};
ghost use Rattle.std.specs.Int.{w32};
ghost use Rattle.synthesis.specs.Recursion.{some_outside};
ghost use Rattle.synthesis.specs.Synthesis.{unheld, sample, previewed};
ghost use Rattle.synthesis.specs.Whole.{sum, sums};
ghost use Rattle.synthesis.specs.Inner.{IsSum};

use super::{Output, Row};
use copy::{padded, stretch, window};

// A product, before it is doubled.
fn product(a: i16, y: i16) -> i32
    ensures { (result ≡ a *ℤ y) × (nat_abs result ≤ nat_abs a * 32768) }
{
    i32::from(a) * i32::from(y)
}

// Twice the product.
fn doubled(a: i16, y: i16) -> Option<i32>
    ensures { SomeIff result (FitsSigned w32 (pos 2 *ℤ (a *ℤ y))) (pos 2 *ℤ (a *ℤ y)) }
{
    product(a, y).checked_mul(2)
}

// The last number of a sample, of its sum.
fn last(sum: i32) -> Option<i32>
    ensures { SomeIff result (FitsSigned w32 (sum *ℤ pos 8) × FitsSigned w32 (sum *ℤ pos 8 +ℤ pos 32768)) (sum *ℤ pos 8 +ℤ pos 32768) }
{
    sum.checked_mul(8)?.checked_add(32768)
}

impl Row {
    // The sum for a sample, from its number of the excitation and the ten samples before it, each number on the way tested.
    fn tested(&self, x: i16, y: &[i16; 10]) -> Option<i32>
        ensures { SomeIff result (some_outside (sums self.now.coefficients x y.now 10) ≡ false) (sum self.now.coefficients x y.now 10) }
    {
        let a = &self.coefficients;
        let mut s = doubled(a[0], x)?;
        for (c, v) in a[1..].iter().zip(y.iter().rev()) {
            let p = doubled(*c, *v)?;
            s = s.checked_sub(p)?;
        }
        Some(s)
    }

    // The same of a light row: no number up to the sum can lie outside, and none is tested. The numbers are kept at half their size.
    pub(crate) fn untested(&self, x: i16, y: &[i16; 10]) -> i32
        requires { self.now.light ≡ true }
        ensures { IsSum self.now.coefficients x y.now 10 result }
    {
        let a = &self.coefficients;
        let mut half = product(a[0], x);
        for (c, v) in a[1..].iter().zip(y.iter().rev()) {
            half -= product(*c, *v);
        }
        half * 2
    }

    // The one or the other.
    fn sum(&self, x: i16, y: &[i16; 10]) -> Option<i32>
        ensures { SomeIff result (some_outside (sums self.now.coefficients x y.now 10) ≡ false) (sum self.now.coefficients x y.now 10) }
    {
        if self.light {
            return Some(self.untested(x, y));
        }
        self.tested(x, y)
    }

    // The sample, where none of its numbers lies outside.
    fn sample(&self, x: i16, y: &[i16; 10]) -> Option<i16>
        ensures { SomeIff result (some_outside (unheld 10 self.now.coefficients x y.now) ≡ false) (sample 10 self.now.coefficients x y.now) }
    {
        let s = self.sum(x, y)?;
        let e = last(s)?;
        Some((e >> 16) as i16)
    }
}

/// The first pass, sample by sample: the place at which a step first leaves 32 bits, and the samples before it.
pub fn preview(coefficients: [i16; 11], excitation: [i16; 40], history: [i16; 10]) -> Output
    ensures { result ≡ previewed coefficients excitation history }
{
    let row = Row::new(coefficients);
    let mut buf: [i16; 50] = padded(&history);
    for (n, x) in excitation.iter().enumerate() {
        let Some(y) = row.sample(*x, window(&buf, n)) else {
            return Output {
                samples: stretch(&buf, 10),
                place: n,
            };
        };
        buf[n + 10] = y;
    }
    Output {
        samples: stretch(&buf, 10),
        place: 40,
    }
}
