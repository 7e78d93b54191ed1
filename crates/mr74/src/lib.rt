// The frame calls of MR74: of a sheet with gains, of one with their indices, and of an erased frame.
#![tactic(auto)]

ghost use Rattle.std.specs.Prelude.{◌≡◌, Ok, Err, map};
ghost use Rattle.decoder.specs.Subframe.{flag_of};
ghost use Rattle.kinds.specs.Kind.{kind_of};
ghost use Rattle.kinds.specs.Checked.{lent_kind};
ghost use Rattle.kinds.specs.Inner.{prepared_of};
ghost use Rattle.mr74.specs.Frame.{accepted_trace, call_result, energies_result, energies_result_of, frame_call, index_call, erased_call};
ghost use Rattle.mr74.specs.Divisions.{DivisionsOfInputs, EveryDivision};
ghost use Rattle.mr74.specs.Indexed.{IndexIsFrame};
ghost use Rattle.mr74.specs.Sharpening.{SharpeningIsCore};
ghost use Rattle.mr74.specs.Inner.{kind_call, refused_answer};

use decoder::CoreOutput;
use gain::GainDecoder;
pub use kinds::{ERASED_SHEET, INDEX_SHEET, SAMPLES, SHEET, SheetKind};
use kinds::{GainMemory, Prepared, check_call};
use lpc::Rows;
use outcome::{Outcome, Refusal};
use postfilter::Postfiltered;
use state::State;

/// The bytes of a frame sheet, two a number.
pub const SHEET_BYTES: usize = 2 * SHEET;

/// What the frame call gives beside the lent samples.
#[derive(Drop)]
pub struct FrameAnswer {
    pub outcome: Outcome,
    pub rows: Rows,
    /// Of each subframe the first sample, 0 to 39, at which a step of its first pass clamped, 40 where none did; 40 four times where the call was refused.
    pub places: [usize; 4],
    pub next: State,
}

/// What a frame call that is lent past energies gives beside the lent samples: the frame's answer, and the energies after it.
#[derive(Drop)]
pub struct EnergiesAnswer {
    pub frame: FrameAnswer,
    pub gain_decoder: GainDecoder,
}

/// The retry flags of an answer: a subframe was retried where its place is not 40.
pub fn flags(places: [usize; 4]) -> [bool; 4]
    ensures { result ≡ map flag_of places }
{
    places.map(|place| place != 40)
}

// The core of the frame, then the postfilter: the answer, and the samples.
fn decode(state: State, prepared: Prepared) -> (EnergiesAnswer, [i16; SAMPLES])
    ensures { energies_result result.0 result.1 ≡ energies_result_of (accepted_trace (Ok tt) (prepared_of prepared) state) }
{
    let Prepared {
        inputs,
        concealment,
        gain_decoder,
    } = prepared;
    let CoreOutput {
        rows,
        places,
        samples: synthesis,
        next: core,
    } = decoder::decode(state.core, inputs);
    let Postfiltered {
        samples,
        memory: post,
    } = postfilter::process(state.post, synthesis, rows);
    let frame = FrameAnswer {
        outcome: Ok(()),
        rows,
        places,
        next: State {
            core,
            post,
            concealment,
        },
    };
    (
        EnergiesAnswer {
            frame,
            gain_decoder,
        },
        samples,
    )
}

// Rows all zero, places 40, the state and the energies as they came.
#[tactic(auto, using(crate::proofs::Answers::zeros))]
fn refused(refusal: Refusal, state: State, gain_decoder: GainDecoder) -> EnergiesAnswer
    ensures { result ≡ refused_answer (Err refusal) state gain_decoder }
{
    EnergiesAnswer {
        frame: FrameAnswer {
            outcome: Err(refusal),
            rows: Rows::default(),
            places: [40; 4],
            next: state,
        },
        gain_decoder,
    }
}

/// A call of any kind, of which the three below are fronts. A frame sheet's goes by no energies.
pub fn call(
    kind: SheetKind<'_>,
    sheet: &[i16],
    state: State,
    gain_decoder: GainDecoder,
    out: &mut [i16],
) -> EnergiesAnswer
    ensures { energies_result result out.new ≡ kind_call (kind_of (lent_kind kind.entry)) gain_decoder.energies sheet.now state out.old }
{
    match check_call(kind, sheet, state, out.len()) {
        Ok(checked) => {
            let opened = GainMemory {
                sharpening: state.core.sharpening,
                gain_decoder,
                concealment: state.concealment.gains,
            };
            let prepared = checked.inputs(state.concealment, opened);
            let (answer, samples) = decode(state, prepared);
            out.copy_from_slice(&samples);
            answer
        }
        Err(refusal) => refused(refusal, state, gain_decoder),
    }
}

/// Decodes a frame. Accepted: 160 samples in the lent output; rows, places and the next state come back. Refused, with a number and a place: the lent output keeps its
/// samples, rows are 0, places 40, and the state comes back as it came.
pub fn frame(sheet: &[i16], state: State, out: &mut [i16]) -> FrameAnswer
    ensures { call_result result out.new ≡ frame_call sheet.now state out.old }
{
    call(SheetKind::Frame, sheet, state, GainDecoder::default(), out).frame
}

/// Decodes a frame of an index sheet: its gains come from their indices, by the lent tables of logarithm and power and by the past energies. Accepted: as `frame`, and
/// the energies come back with those of its subframes. Refused: as `frame`, and the energies as they came.
pub fn frame_indexed(
    sheet: &[i16],
    state: State,
    log_table: &[i16],
    pow_table: &[i16],
    gain_decoder: GainDecoder,
    out: &mut [i16],
) -> EnergiesAnswer
    ensures { energies_result result out.new ≡ index_call log_table.now pow_table.now gain_decoder.energies sheet.now state out.old }
{
    call(
        SheetKind::Index(log_table, pow_table),
        sheet,
        state,
        gain_decoder,
        out,
    )
}

/// Decodes an erased frame: its sheet has LSFs, an attenuation stage and innovation; lags and gains are concealed. Accepted: as `frame`, and the past energies come back
/// stepped by `conceal_energy` once a subframe. Refused: as `frame`, and the energies as they came.
pub fn frame_erased(
    sheet: &[i16],
    state: State,
    gain_decoder: GainDecoder,
    out: &mut [i16],
) -> EnergiesAnswer
    ensures { energies_result result out.new ≡ erased_call gain_decoder.energies sheet.now state out.old }
{
    call(SheetKind::Erased, sheet, state, gain_decoder, out)
}

/// What is promised of the calls beside their answers.
pub fn laws()
    ensures index { IndexIsFrame }
    ensures sharpening { SharpeningIsCore }
    ensures inputs { DivisionsOfInputs }
    ensures divisions { EveryDivision }
{}
