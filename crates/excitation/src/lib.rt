// The excitation of a subframe: sharpening, feedback and the past.
#![tactic(auto)]

ghost use Rattle.std.specs.Prelude.{◌≡◌, ◌≤◌, pos};
ghost use Rattle.basicop.specs.Ops.{add, mult};
ghost use Rattle.excitation.specs.Excitation.{sharpened, sharpening, feedback_at, feedback, taking};

use basicop::{Q1, Q13, Q14, Q15};
use std::array;

// A sample of the sharpened innovation, from the one a lag before it.
#[tactic(auto, using(basicop::proofs::Calls::read_back))]
fn sharper(code: i16, before: i16, doubled: Q15) -> i16
    ensures { result ≡ add code (mult before doubled.0) }
{
    basicop::add(code, basicop::mult(before, doubled.0))
}

/// The innovation with pitch sharpening, by the sharpening of the subframe before. A lag is at least 19.
pub fn sharpen(innovation: Q13, lag: usize, sharpening: Q14) -> Q13
    requires { (1 ≤ lag) × (lag ≤ 144) }
    ensures { result.0 ≡ sharpened innovation.0 (pos lag) sharpening.0 }
{
    let doubled = basicop::doubled(sharpening);
    let mut code = innovation.0;
    for i in lag..40 {
        code[i] = sharper(code[i], code[i - lag], doubled);
    }
    Q13(code)
}

/// The sharpening that the next subframe takes.
pub fn next_sharpening(pitch: Q14) -> Q14
    ensures { result.0 ≡ sharpening pitch.0 }
{
    Q14(pitch.0.min(13017))
}

// A sample of the feedback.
#[tactic(auto, using(basicop::proofs::Calls::read_back))]
fn fed_back(adaptive: i16, innovation: i16, pitch: Q14, code: Q1) -> i16
    ensures { result ≡ feedback_at pitch.0 code.0 adaptive innovation }
{
    let sum = basicop::l_mac(basicop::l_mult(adaptive, pitch.0), innovation, code.0);
    basicop::round(basicop::l_shl(sum, 1))
}

/// The excitation that is fed back, before any quartering.
pub fn feedback(adaptive: [i16; 40], innovation: Q13, pitch: Q14, code: Q1) -> [i16; 40]
    ensures { result ≡ feedback adaptive pitch.0 innovation.0 code.0 }
{
    let Q13(numbers) = innovation;
    array::from_fn(|i| fed_back(adaptive[i], numbers[i], pitch, code))
}

/// The past takes in a subframe, its oldest forty leaving.
pub fn take_in(past: [i16; 154], feedback: [i16; 40]) -> [i16; 154]
    ensures { result ≡ taking past feedback }
{
    copy::joined(&past[40..], &feedback)
}
