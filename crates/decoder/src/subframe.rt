// The subframe step: excitation, and synthesis with its retry.
ghost use Rattle.std.specs.Prelude.{◌≡◌};
ghost use Rattle.decoder.specs.Subframe.{synthesis_result, synthesis_output};
ghost use Rattle.decoder.specs.Inputs.{subframe_of};
ghost use Rattle.decoder.specs.Core.{excitations, subframe_result, subframe_output};

use super::enhancement::first_excitation;
use super::{Core, Excitations, Parameters, SubframeOutput, SynthesisOutput};
use basicop::Q14;
use synthesis::{Filtered, Output};

// Syn_filt on the first excitation; where a step clamps, feedback and past are quartered and it runs again on that feedback.
#[tactic(auto, using(crate::proofs::Synthesis::result_retried, crate::proofs::Synthesis::result_unretried))]
fn synthesise(
    row: [i16; 11],
    feedback: [i16; 40],
    excitation: [i16; 40],
    history: [i16; 10],
    past: [i16; 154],
) -> SynthesisOutput
    ensures { result ≡ synthesis_output (synthesis_result (record { row = row; feedback = feedback; excitation = excitation }) history past) }
{
    let Output { samples, place } = synthesis::preview(row, excitation, history);
    if place < 40 {
        let feedback = basicop::quartered(feedback);
        let Filtered { samples, .. } = synthesis::filter(row, feedback, history);
        return SynthesisOutput {
            place,
            samples,
            feedback,
            past: excitation::take_in(basicop::quartered(past), feedback),
        };
    }
    SynthesisOutput {
        place,
        samples,
        feedback,
        past: excitation::take_in(past, feedback),
    }
}

// The excitation, from the past and the sharpening that the subframe before left.
#[tactic(auto, using(crate::proofs::Subframes::excitations_are))]
fn excite(past: [i16; 154], sharpening: Q14, p: Parameters) -> Excitations
    ensures { result ≡ (excitations past sharpening.0 (subframe_of p)).value }
{
    let adaptive = adaptive::predict(past, p.lag);
    let code = excitation::sharpen(p.innovation, p.lag.samples as usize, sharpening);
    let feedback = excitation::feedback(adaptive, code, p.gains.pitch, p.gains.code);
    let excitation = first_excitation(adaptive, p.gains.pitch, feedback);
    Excitations {
        feedback,
        excitation,
    }
}

/// The subframe step.
#[tactic(auto, using(crate::proofs::Subframes::subframe_is))]
pub fn decode_subframe(core: &Core, row: [i16; 11], p: Parameters) -> SubframeOutput
    ensures { result ≡ subframe_output (subframe_result core.now row (subframe_of p)) }
{
    let Excitations {
        feedback,
        excitation,
    } = excite(core.past, core.sharpening, p);
    let SynthesisOutput {
        place,
        samples,
        past,
        ..
    } = synthesise(row, feedback, excitation, core.history, core.past);
    let sharpening = excitation::next_sharpening(p.gains.pitch);
    let history = synthesis::newest(samples);
    SubframeOutput {
        place,
        samples,
        next: Core {
            past,
            sharpening,
            history,
            ..*core
        },
    }
}
