// gc_pred, and the code gain of Dec_gain.
ghost use Rattle.std.specs.Prelude.{◌≡◌, pos, ◌≤ℤ◌};
ghost use Rattle.gain.specs.Gain.{below_mean, predicted_energy, predicted_gain, code_gain};

use basicop::{
    Dpf, Q1, Q12, Q13, extract_h, extract_l, l_extract, l_mac, l_mult, l_shl, l_shr, mpy_32_16, sub,
};
use logarithm::{Logarithm, log2, pow2};

// The logarithm of the innovation's energy, scaled and taken from the mean energy.
fn below_mean(innovation: Q13, table: &[i16; 33]) -> i32
    ensures { result ≡ below_mean table.now innovation.0 }
{
    let log = log2(energy::squares(&innovation.0), table);
    let halves = Dpf {
        hi: log.exponent,
        lo: log.fraction,
    };
    l_shl(l_mac(mpy_32_16(halves, -24660), 32588, 32), 10)
}

// With the past energies (Q10) by the predictor's coefficients (Q13), newest first.
fn predicted_energy(energies: [i16; 4], innovation: Q13, table: &[i16; 33]) -> i32
    ensures { result ≡ predicted_energy table.now innovation.0 energies }
{
    let [a, b, c, d] = energies;
    let newest = l_mac(below_mean(innovation, table), 5571, a);
    l_mac(l_mac(l_mac(newest, 4751, b), 2785, c), 1556, d)
}

/// gc_pred: the logarithm of the code gain that the past energies predict. 5439 is MR74's own factor.
pub fn predict(energies: [i16; 4], innovation: Q13, table: &[i16; 33]) -> Logarithm
    ensures { result ≡ predicted_gain table.now innovation.0 energies }
{
    let gain = extract_h(predicted_energy(energies, innovation, table));
    let halves = l_extract(l_shr(l_mult(gain, 5439), 8));
    Logarithm {
        exponent: halves.hi,
        fraction: halves.lo,
    }
}

/// The predicted gain, corrected. Its fraction is a half of L_Extract, which is not negative.
#[tactic(auto, using(basicop::proofs::Calls::read_back), unfolding(crate::specs::Gain::code_gain))]
pub fn code_gain(correction: Q12, predicted: Logarithm, table: &[i16; 33]) -> Q1
    requires { pos 0 ≤ℤ predicted.fraction }
    ensures { result.0 ≡ code_gain table.now correction.0 predicted }
{
    let base = extract_l(pow2(14, predicted.fraction, table));
    let corrected = l_mult(correction.0, base);
    Q1(extract_h(l_shr(corrected, sub(10, predicted.exponent))))
}
