// The frame call over bytes, of any kind: its sheet, its samples, and what its answer leaves in what was lent.
ghost use Rattle.std.specs.Prelude.{◌≡◌, ◌<◌, length};
ghost use Rattle.outcome.specs.Outcome.{place_of};
ghost use Rattle.kinds.specs.Kind.{kind_of};
ghost use Rattle.kinds.specs.Checked.{lent_kind};
ghost use Rattle.mr74.specs.Inner.{kind_call};
ghost use Rattle.coding.specs.Bytes.{Bytes};
ghost use Rattle.capi.specs.Capi.{code_of, lent_numbers, state_bytes};
ghost use Rattle.capi.specs.Frames.{energy_count, room_in, out_after, row_bytes, frame_return, kind_after, kind_bytes};

use super::lent::{as_lent, energies_in, lent_numbers, write_energies};
use super::{ENERGIES_BYTES, OUT_BYTES, PLACES_BYTES, ROWS_BYTES, STATE_BYTES, UNFIT, code};
use gain::GainDecoder;
use lpc::Rows;
use mr74::{EnergiesAnswer, FrameAnswer, SAMPLES, SheetKind};
use state::State;

// The room for samples in an output: none where it has another length than theirs. No call takes so little: it refuses the output by 5.
fn room_of(out: &[u8]) -> usize
    ensures { result ≡ length (room_in out.now) }
{
    if out.len() == OUT_BYTES { SAMPLES } else { 0 }
}

// The call of a sheet's numbers, with the samples' bytes.
fn call_out(
    kind: SheetKind<'_>,
    sheet: &[i16],
    state: State,
    energies: GainDecoder,
    out: &mut [u8],
) -> EnergiesAnswer
    ensures value { result ≡ (kind_call (kind_of (lent_kind kind.entry)) energies.energies sheet.now state (room_in out.old)).answer }
    ensures out_after { out.new ≡ out_after result.frame.outcome (kind_call (kind_of (lent_kind kind.entry)) energies.energies sheet.now state (room_in out.old)).lent out.old }
{
    let mut samples = [0i16; SAMPLES];
    let room = &mut samples[..room_of(out)];
    let answer = mr74::call(kind, sheet, state, energies, room);
    let accepted = answer.frame.outcome.is_ok();
    if accepted {
        coding::put(out, room);
    }
    answer
}

// The four rows one after another.
fn write_rows(rows: Rows, out: &mut [u8; ROWS_BYTES])
    ensures { out.new ≡ row_bytes rows }
{
    coding::put(out, <[[i16; 11]; 4]>::from(rows).as_flattened());
}

// A byte for each place.
fn place_bytes(places: [usize; 4]) -> [u8; PLACES_BYTES]
    requires { Bytes places }
    ensures { result ≡ places }
{
    places.map(|place| place as u8)
}

// What an answer leaves in what was lent beside output and energies.
fn give(
    answer: FrameAnswer,
    state: &mut [u8; STATE_BYTES],
    rows: &mut [u8; ROWS_BYTES],
    places: &mut [u8; PLACES_BYTES],
) -> u32
    requires { (place_of answer.outcome < 256) × Bytes answer.places }
    ensures value { result ≡ code_of answer.outcome }
    ensures state_after { state.new ≡ state_bytes answer.next }
    ensures rows_after { rows.new ≡ row_bytes answer.rows }
    ensures places_after { places.new ≡ answer.places }
{
    coding::write_body(answer.next, state);
    write_rows(answer.rows, rows);
    *places = place_bytes(answer.places);
    code(answer.outcome)
}

// The call of any kind, whose sheet has N numbers, with state, rows, places and energies of their lengths.
fn call_fit<const N: usize>(
    kind: SheetKind<'_>,
    sheet: &[u8],
    state: &mut [u8; STATE_BYTES],
    out: &mut [u8],
    rows: &mut [u8; ROWS_BYTES],
    places: &mut [u8; PLACES_BYTES],
    energies: &mut [u8; ENERGIES_BYTES],
) -> u32
    requires { N ≡ (kind_of (lent_kind kind)).count }
    ensures { frame_return result state.new out.new rows.new places.new energies.new ≡ kind_after (kind_of (lent_kind kind.entry)) sheet.now state.old out.old energies.old }
{
    let numbers: Option<[i16; N]> = lent_numbers(sheet);
    let opened = energies_in(energies);
    let answer = call_out(
        kind,
        as_lent(&numbers),
        coding::state_in(state),
        opened,
        out,
    );
    write_energies(answer.gain_decoder, energies);
    give(answer.frame, state, rows, places)
}

// The same of what is lent. What no refusal speaks of is tested here, once, before every refusal: where it has another length nothing is changed.
pub fn call<const N: usize>(
    kind: SheetKind<'_>,
    sheet: &[u8],
    state: &mut [u8],
    out: &mut [u8],
    rows: &mut [u8],
    places: &mut [u8],
    energies: &mut [u8],
) -> u32
    requires { N ≡ (kind_of (lent_kind kind)).count }
    ensures { frame_return result state.new out.new rows.new places.new energies.new ≡ kind_bytes (kind_of (lent_kind kind.entry)) energy_count sheet.now state.old out.old rows.old places.old energies.old }
{
    let Some(state) = state.as_mut_array() else {
        return UNFIT;
    };
    let Some(rows) = rows.as_mut_array() else {
        return UNFIT;
    };
    let Some(places) = places.as_mut_array() else {
        return UNFIT;
    };
    let Some(energies) = energies.as_mut_array() else {
        return UNFIT;
    };
    call_fit::<N>(kind, sheet, state, out, rows, places, energies)
}
