// The frame calls, the call of a gain's index, the reader and the writer over bytes; the crate capi_c exports them for C and Rust (c/mr74.h).
#![tactic(auto)]

ghost use Rattle.std.specs.Prelude.{◌≡◌, ◌<◌, []};
ghost use Rattle.outcome.specs.Outcome.{place_of};
ghost use Rattle.capi.specs.Capi.{code_of, read_return, read_bytes, write_return, write_bytes};
ghost use Rattle.capi.specs.Frames.{frame_return, frame_bytes, index_bytes, erased_bytes, RefusedUnchanged};
ghost use Rattle.capi.specs.Gains.{GainUnchanged};
ghost use Rattle.capi.specs.Lengths.{OtherSheet, OtherOutput, OtherTable};

mod frames;
mod gains;
mod lent;

use frames::call;
pub use gains::mr74_gain_decode;
use lent::{as_lent, lent_numbers};
use mr74::{ERASED_SHEET, INDEX_SHEET, SAMPLES, SHEET, SheetKind};
use outcome::Outcome;

// How long the other buffers are: two bytes for each number, one for each place.
const OUT_BYTES: usize = 2 * SAMPLES;

const STATE_BYTES: usize = coding::BODY_BYTES;

const ROWS_BYTES: usize = 2 * (4 * 11);

const PLACES_BYTES: usize = 4;

const ENERGIES_BYTES: usize = 2 * 4;

const INNOVATION_BYTES: usize = 2 * 40;

const GAINS_BYTES: usize = 2 * 2;

// The numbers of a table of logarithm or power.
const TABLE: usize = 33;

// What is returned where something lent that no refusal speaks of has another length.
const UNFIT: u32 = 255;

// Number and place in one.
fn code(outcome: Outcome) -> u32
    requires { place_of outcome < 256 }
    ensures { result ≡ code_of outcome }
{
    let number = outcome::number(outcome) as u32;
    let place = outcome::place(outcome) as u32;
    number + 256 * place
}

// ---- the frame calls
/// The frame call. Accepted: the samples in `out`, the next state in `state`; refused: both stay. Rows and places are the answer's either way. Returns
/// number + 256 * place, or 255 where state, rows or places has another length, and nothing is changed.
pub fn mr74_frame(
    sheet: &[u8],
    state: &mut [u8],
    out: &mut [u8],
    rows: &mut [u8],
    places: &mut [u8],
) -> u32
    ensures { frame_return result state.new out.new rows.new places.new [] ≡ frame_bytes sheet.now state.old out.old rows.old places.old }
{
    // No energies are lent, and a frame sheet goes by none: any stand for them.
    let mut energies = [0u8; ENERGIES_BYTES];
    call::<SHEET>(
        SheetKind::Frame,
        sheet,
        state,
        out,
        rows,
        places,
        &mut energies,
    )
}

/// `mr74_frame` of an index sheet, with the tables of logarithm and power and the past energies. Accepted: the subframes' energies are in `energies`;
/// refused: they stay. Returns 255 where `energies` has another length, too.
pub fn mr74_frame_indexed(
    sheet: &[u8],
    state: &mut [u8],
    out: &mut [u8],
    rows: &mut [u8],
    places: &mut [u8],
    log_table: &[u8],
    pow_table: &[u8],
    energies: &mut [u8],
) -> u32
    ensures { frame_return result state.new out.new rows.new places.new energies.new ≡ index_bytes sheet.now state.old out.old rows.old places.old log_table.now pow_table.now energies.old }
{
    let logs: Option<[i16; TABLE]> = lent_numbers(log_table);
    let pows: Option<[i16; TABLE]> = lent_numbers(pow_table);
    let kind = SheetKind::Index(as_lent(&logs), as_lent(&pows));
    call::<INDEX_SHEET>(kind, sheet, state, out, rows, places, energies)
}

/// `mr74_frame` of an erased sheet, with the past energies. Accepted: they are stepped once a subframe; refused: they stay. Returns 255 where `energies` has
/// another length, too.
pub fn mr74_frame_erased(
    sheet: &[u8],
    state: &mut [u8],
    out: &mut [u8],
    rows: &mut [u8],
    places: &mut [u8],
    energies: &mut [u8],
) -> u32
    ensures { frame_return result state.new out.new rows.new places.new energies.new ≡ erased_bytes sheet.now state.old out.old rows.old places.old energies.old }
{
    call::<ERASED_SHEET>(SheetKind::Erased, sheet, state, out, rows, places, energies)
}

// ---- the reader
/// The record's reader: the state in `state`, the length of the note, which is what the record begins with, in `note`; both zero where it refuses.
pub fn mr74_read(bytes: &[u8], state: &mut [u8], note: &mut usize) -> u32
    ensures { read_return result state.new note.new ≡ read_bytes bytes.now state.old note.old }
{
    let Some(state) = state.as_mut_array() else {
        return UNFIT;
    };
    let reading = record::read(bytes);
    coding::write_body(reading.answer.state, state);
    *note = reading.note.len();
    code(reading.answer.outcome)
}

// ---- the writer
/// The record's writer: the record of `state` in `bytes`, which stay as they are where it refuses.
pub fn mr74_write(state: &[u8], bytes: &mut [u8]) -> u32
    ensures { write_return result bytes.new ≡ write_bytes state.now bytes.old }
{
    let Some(state) = state.as_array() else {
        return UNFIT;
    };
    code(record::write(coding::state_in(state), bytes))
}

/// What is promised of the calls beside what they return: a refused one leaves the lent state, output and energies; and bytes that are no sheet, no output or no
/// table by their length are refused by 1, 5 and 7.
pub fn laws()
    ensures refused { RefusedUnchanged }
    ensures gain { GainUnchanged }
    ensures sheet { OtherSheet }
    ensures output { OtherOutput }
    ensures table { OtherTable }
{}
