// The postfilter: Post_Filter of TS 26.073, with Weight_Ai, Residu and preemphasis.
#![tactic(auto)]

ghost use Rattle.std.specs.Prelude.{◌≡◌, ◌++◌};
ghost use Rattle.lists.specs.Lists.{at};
ghost use Rattle.postfilter.specs.Residual.{residual};
ghost use Rattle.postfilter.specs.Preemphasis.{emphasised, preemphasised};
ghost use Rattle.postfilter.specs.Postfilter.{filter_result, postfilter_result};

mod laws;
mod tilting;
mod whitening;

use basicop::{Q15, mult, sub};
use copy::stretch;
use energy::GainControl;
pub use laws::{frame_tilts, tilt_range};
use lpc::Rows;
use synthesis::Filtered;
use tilting::{impulse, tilt_of};
use whitening::{residual, weight};

/// What a subframe leaves to the next: its last ten inputs, the last ten samples of its second synthesis, its last residual, and the smoothed gain.
#[derive(Clone, Copy, Default)]
pub struct Postfilter {
    pub input_history: [i16; 10],
    pub synthesis_history: [i16; 10],
    pub previous_residual: i16,
    pub gain: GainControl,
}

/// N samples, of a subframe or of a frame, and the memory after them.
#[derive(Drop)]
pub struct Postfiltered<const N: usize> {
    pub samples: [i16; N],
    pub memory: Postfilter,
}

// Q15: powers of 0.55 and of 0.7.
const NUMERATOR: [i16; 10] = [18022, 9912, 5451, 2998, 1649, 907, 499, 274, 151, 83];

const DENOMINATOR: [i16; 10] = [22938, 16057, 11240, 7868, 5508, 3856, 2699, 1889, 1322, 925];

// ---- preemphasis
#[tactic(auto, using(basicop::proofs::Calls::read_back))]
fn emphasised(residual: i16, before: i16, tilt: Q15) -> i16
    ensures { result ≡ emphasised tilt.0 residual before }
{
    sub(residual, mult(tilt.0, before))
}

// Each residual, less the tilt times the one before it as it was.
fn preemphasis(residual: [i16; 40], tilt: Q15, carried: i16) -> [i16; 40]
    ensures { result ≡ preemphasised tilt.0 carried residual }
{
    let mut out = residual;
    let mut previous = carried;
    for r in &mut out {
        let here = *r;
        *r = emphasised(here, previous, tilt);
        previous = here;
    }
    out
}

// ---- a subframe
// The excitation of the second synthesis, and the last residual before it was changed.
#[derive(Drop)]
struct Excited {
    samples: [i16; 40],
    last: i16,
}

fn excitation(
    numerator: [i16; 11],
    tilt: Q15,
    history: [i16; 10],
    carried: i16,
    samples: [i16; 40],
) -> Excited
    ensures { (result.samples ≡ preemphasised tilt.0 carried (residual numerator (history ++ samples))) × (result.last ≡ at (residual numerator (history ++ samples)) 39) }
{
    let whitened = residual(numerator, history, samples);
    let out = preemphasis(whitened, tilt, carried);
    Excited {
        samples: out,
        last: whitened[39],
    }
}

// One subframe, from its row and its synthesis samples.
fn filter(memory: Postfilter, coefficients: [i16; 11], samples: [i16; 40]) -> Postfiltered<40>
    ensures { result ≡ (filter_result memory coefficients samples).output }
{
    let Postfilter {
        input_history,
        synthesis_history,
        previous_residual,
        mut gain,
    } = memory;
    let numerator = weight(coefficients, &NUMERATOR);
    let denominator = weight(coefficients, &DENOMINATOR);
    let tilt = tilt_of(impulse(numerator, denominator));
    let Excited {
        samples: fed,
        last: previous_residual,
    } = excitation(numerator, tilt, input_history, previous_residual, samples);
    let Filtered {
        samples: unscaled,
        history: synthesis_history,
    } = synthesis::filter(denominator, fed, synthesis_history);
    let scaled = energy::process(&mut gain, samples, unscaled);
    let input_history = synthesis::newest(samples);
    Postfiltered {
        samples: scaled,
        memory: Postfilter {
            input_history,
            synthesis_history,
            previous_residual,
            gain,
        },
    }
}

// ---- a frame
/// Post_Filter over the four subframes of a frame, from its rows and synthesis samples.
pub fn process(memory: Postfilter, samples: [i16; 160], rows: Rows) -> Postfiltered<160>
    ensures { result ≡ (postfilter_result memory rows samples).output }
{
    let mut out = samples;
    let mut carried = memory;
    for (k, row) in <[[i16; 11]; 4]>::from(rows).iter().enumerate() {
        let from = 40 * k;
        let Postfiltered {
            samples: made,
            memory: left,
        } = filter(carried, *row, stretch(&samples, from));
        out[from..from + 40].copy_from_slice(&made);
        carried = left;
    }
    Postfiltered {
        samples: out,
        memory: carried,
    }
}
