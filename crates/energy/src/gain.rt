// The gain between two energies, and agc2 of TS 26.073.
ghost use Rattle.std.specs.Prelude.{◌≡◌, MatchOption, map, pos, ◌<ℤ◌};
ghost use Rattle.basicop.specs.Ops.{l_shl, l_shr, round, div_s};
ghost use Rattle.energy.specs.Energy.{energy};
ghost use Rattle.energy.specs.Gain.{gain_out, gain_in, ratio, energy_gain, scaled_by, agc2};

use crate::root::inverse_sqrt;
use crate::sum::energy;
use basicop::{Q12, div_s, extract_h, l_mult, l_shl, l_shr, norm_l, round, sub};
use std::array;

// a number, shifted and rounded to its high word
#[tactic(auto, using(basicop::proofs::Calls::read_back))]
fn rounded(value: i32, shift: i16) -> i16
    ensures { result ≡ round (l_shl value shift) }
{
    round(l_shl(value, shift))
}

// a quotient with its exponent
fn scaled_ratio(quotient: i16, exponent: i16) -> i32
    ensures { result ≡ l_shr (l_shl quotient (pos 7)) exponent }
{
    l_shr(l_shl(quotient as i32, 7), exponent)
}

// The ratio of two positive energies. `energy_gain` shows that they are.
fn energy_ratio(output_energy: i32, input_energy: i32) -> i32
    requires { (pos 0 <ℤ output_energy) × (pos 0 <ℤ input_energy) }
    ensures { result ≡ ratio output_energy input_energy (div_s (gain_out output_energy) (gain_in input_energy)).value }
{
    let exponent = sub(norm_l(output_energy), 1);
    let gain_out = rounded(output_energy, exponent);
    let input_exponent = norm_l(input_energy);
    let gain_in = rounded(input_energy, input_exponent);
    scaled_ratio(div_s(gain_out, gain_in), sub(exponent, input_exponent))
}

/// The gain that brings the output to the energy of the input, where the output's is not 0.
pub fn energy_gain(input: [i16; 40], output: [i16; 40]) -> Option<Q12>
    ensures { MatchOption result (energy output ≡ pos 0) (λ gain. (pos 0 <ℤ energy output) × (gain.0 ≡ (energy_gain (energy output) (energy input)).value)) }
{
    let output_energy = energy(output);
    if output_energy <= 0 {
        return None;
    }
    let input_energy = energy(input);
    if input_energy <= 0 {
        return Some(Q12(0));
    }
    let ratio = energy_ratio(output_energy, input_energy);
    Some(Q12(rounded(inverse_sqrt(ratio), 9)))
}

#[tactic(auto, using(basicop::proofs::Calls::read_back))]
pub fn scale(sample: i16, gain: Q12) -> i16
    ensures { result ≡ scaled_by gain.0 sample }
{
    extract_h(l_shl(l_mult(sample, gain.0), 3))
}

fn scaled(samples: [i16; 40], gain: Q12) -> [i16; 40]
    ensures { result ≡ map (scaled_by gain.0) samples }
{
    array::from_fn(|i| scale(samples[i], gain))
}

/// agc2: the output, brought to the energy of the input.
pub fn match_energy(input: [i16; 40], output: [i16; 40]) -> [i16; 40]
    ensures { result ≡ (agc2 input output).value }
{
    match energy_gain(input, output) {
        Some(gain) => scaled(output, gain),
        None => output,
    }
}
