// The tilt of Post_Filter of TS 26.073, from the impulse response of the weighted filters.
ghost use Rattle.std.specs.Prelude.{◌≡◌};
ghost use Rattle.postfilter.specs.Tilt.{impulse, correlation, tilt_of};

use basicop::{Q15, div_s, extract_h, l_mac, mult};
use copy::padded;

/// The impulse response.
pub fn impulse(numerator: [i16; 11], denominator: [i16; 11]) -> [i16; 22]
    ensures { result ≡ impulse numerator denominator }
{
    let samples = synthesis::first_samples(denominator, padded(&numerator), [0; 10], 22);
    *samples.first_chunk().unwrap()
}

// Each sample by the next.
fn correlation(h: [i16; 22]) -> i32
    ensures { result ≡ correlation h }
{
    h.iter().zip(&h[1..]).fold(0, |s, (a, b)| l_mac(s, *a, *b))
}

/// 26214 is 0.8 (Q15). The correlation is at most the energy, so that the division is in order: `tilt_asks`.
pub fn tilt_of(h: [i16; 22]) -> Q15
    ensures { result.0 ≡ (tilt_of h).value }
{
    let r1 = extract_h(correlation(h));
    if r1 <= 0 {
        return Q15(0);
    }
    let r0 = extract_h(energy::squares(&h));
    Q15(div_s(mult(r1, 26214), r0))
}
