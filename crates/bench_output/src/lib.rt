//! The bench program: what it prints of each sheet that it reads, and the whole of it over any reader and writer.
#![tactic(auto)]

ghost use Rattle.std.specs.Prelude.{◌≡◌};
ghost use Rattle.mr74.specs.Frame.{call_result};
ghost use Rattle.bench_output.specs.Output.{answer_line};
ghost use Rattle.bench_output.specs.Steps.{numbered, sheet_step, StepsOutput};

mod serving;

use lines::Line;
use mr74::{FrameAnswer, SAMPLES, SHEET_BYTES};
pub use serving::serve;
use sheets::{Decoded, Step};
use state::State;

/// What a sheet is told and decoded with: its number, and the state for it.
#[derive(Clone, Copy)]
pub struct Carried {
    pub number: u64,
    pub state: State,
}

// The line of a sheet's answer.
fn answer_line(number: u64, answer: FrameAnswer, samples: [i16; SAMPLES]) -> Line
    ensures { result ≡ answer_line number (call_result answer samples) }
{
    match answer.outcome {
        Ok(()) => lines::frame_line(number, mr74::flags(answer.places), lines::peak(samples)),
        Err(refusal) => lines::refused_line(number, refusal.number(), refusal.place()),
    }
}

// A whole sheet: its line, and the state that its call gives back.
fn whole_step(sheet: &[u8; SHEET_BYTES], carried: Carried) -> Step<Line, State>
    ensures { numbered carried result ≡ sheet_step carried sheet.now }
{
    let Carried { number, state } = carried;
    let Decoded { answer, samples } = sheets::decode_bytes(sheet, state);
    let next = answer.next;
    Step {
        made: answer_line(number, answer, samples),
        next: Some(next),
    }
}

/// The step of what was read of a sheet, of any number: all of it, nothing, or some. It gives the state for the next sheet, where there is a next one.
pub fn step(bytes: &[u8], carried: Carried) -> Step<Line, State>
    ensures { numbered carried result ≡ sheet_step carried bytes.now }
{
    match bytes.as_array() {
        Some(sheet) => whole_step(sheet, carried),
        None if bytes.is_empty() => Step {
            made: Line::new(),
            next: None,
        },
        None => Step {
            made: lines::cut_line(carried.number),
            next: None,
        },
    }
}

/// What the steps come to together.
pub fn laws()
    ensures { StepsOutput }
{}
