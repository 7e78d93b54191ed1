// The pass by clamped steps.
ghost use Rattle.std.specs.Prelude.{◌≡◌, ◌≤◌};
ghost use Rattle.synthesis.specs.Synthesis.{acc, first_samples, filtered};

use super::buffer::newest;
use super::{Filtered, Row};
use basicop::{l_msu, l_mult, l_shl, round};
use copy::{padded, stretch, window};

// The sum for a sample, from its number of the excitation and the ten samples before it.
fn accumulated(a: &[i16; 11], x: i16, y: &[i16; 10]) -> i32
    ensures { result ≡ acc a.now x y.now 10 }
{
    let first = l_mult(x, a[0]);
    a[1..]
        .iter()
        .zip(y.iter().rev())
        .fold(first, |s, (c, v)| l_msu(s, *c, *v))
}

impl Row {
    // The same. No step of a light row can clamp, and the sum is the whole one.
    fn clamped_sum(&self, x: i16, y: &[i16; 10]) -> i32
        ensures { result ≡ acc self.now.coefficients x y.now 10 }
    {
        let light = self.light;
        if light {
            return self.untested(x, y);
        }
        accumulated(&self.coefficients, x, y)
    }
}

/// The samples for the first `count` numbers of the excitation, and zeros after them.
pub fn first_samples(
    coefficients: [i16; 11],
    excitation: [i16; 40],
    history: [i16; 10],
    count: usize,
) -> [i16; 40]
    requires { count ≤ 40 }
    ensures { result ≡ first_samples count 10 coefficients excitation history }
{
    let row = Row::new(coefficients);
    let mut buf: [i16; 50] = padded(&history);
    for (n, x) in excitation[..count].iter().enumerate() {
        let s = row.clamped_sum(*x, window(&buf, n));
        buf[n + 10] = round(l_shl(s, 3));
    }
    stretch(&buf, 10)
}

/// Forty samples, each step clamped, and the history after them.
pub fn filter(coefficients: [i16; 11], excitation: [i16; 40], history: [i16; 10]) -> Filtered
    ensures { result ≡ filtered coefficients excitation history }
{
    let samples = first_samples(coefficients, excitation, history, 40);
    let history = newest(samples);
    Filtered { samples, history }
}
