// Enhancement of the excitation: Decoder_amr of TS 26.073, MR74.
ghost use Rattle.std.specs.Prelude.{◌≡◌};
ghost use Rattle.decoder.specs.Enhance.{enhanced_at, enhanced, first_excitation};

use basicop::{Q14, Q15};
use std::array;

// A sample of the enhanced excitation.
#[tactic(auto, using(basicop::proofs::Calls::read_back))]
fn enhanced_sample(feedback: i16, adaptive: i16, doubled: Q15, pitch: Q14) -> i16
    ensures { result ≡ enhanced_at doubled.0 pitch.0 feedback adaptive }
{
    let part = basicop::l_mult(basicop::mult(adaptive, doubled.0), pitch.0);
    basicop::add(feedback, basicop::round(part))
}

fn enhanced(feedback: [i16; 40], adaptive: [i16; 40], doubled: Q15, pitch: Q14) -> [i16; 40]
    ensures { result ≡ enhanced doubled.0 pitch.0 feedback adaptive }
{
    array::from_fn(|i| enhanced_sample(feedback[i], adaptive[i], doubled, pitch))
}

/// The first excitation of the synthesis.
pub fn first_excitation(adaptive: [i16; 40], pitch: Q14, feedback: [i16; 40]) -> [i16; 40]
    ensures { result ≡ (first_excitation adaptive pitch.0 feedback).value }
{
    let doubled = basicop::doubled(excitation::next_sharpening(pitch));
    let strong = 16384 < doubled.0;
    if strong {
        return energy::match_energy(feedback, enhanced(feedback, adaptive, doubled, pitch));
    }
    feedback
}
