// The static library: the calls of capi, exported for C and Rust (../capi/c/mr74.h).
#![tactic(auto)]

ghost use Rattle.std.specs.Prelude.{◌≡◌, []};
ghost use Rattle.capi.specs.Capi.{read_return, read_bytes, write_return, write_bytes};
ghost use Rattle.capi.specs.Frames.{frame_return, frame_bytes, index_bytes, erased_bytes};
ghost use Rattle.capi.specs.Gains.{gain_return, gain_bytes};

/// The frame call. Accepted: the samples in `out`, the next state in `state`; refused: both stay. Rows and places are the answer's either way.
/// Returns number + 256 * place, or 255 where state, rows or places has another length, and nothing is changed.
#[unsafe(no_mangle)]
pub extern "C" fn mr74_frame(
    sheet: &[u8],
    state: &mut [u8],
    out: &mut [u8],
    rows: &mut [u8],
    places: &mut [u8],
) -> u32
    ensures { frame_return result state.new out.new rows.new places.new [] ≡ frame_bytes sheet.now state.old out.old rows.old places.old }
{
    capi::mr74_frame(sheet, state, out, rows, places)
}

/// The same of an index sheet, with the tables of logarithm and power and the past energies. Accepted: the subframes' energies are in `energies`; refused:
/// they stay. Returns 255 where `energies` has another length, too.
#[unsafe(no_mangle)]
pub extern "C" fn mr74_frame_indexed(
    sheet: &[u8],
    state: &mut [u8],
    out: &mut [u8],
    rows: &mut [u8],
    places: &mut [u8],
    log_table: &[u8],
    pow_table: &[u8],
    energies: &mut [u8],
) -> u32
    ensures { frame_return result state.new out.new rows.new places.new energies.new ≡ index_bytes sheet.now state.old out.old rows.old places.old log_table.now pow_table.now energies.old }
{
    capi::mr74_frame_indexed(
        sheet, state, out, rows, places, log_table, pow_table, energies,
    )
}

/// The same of an erased sheet, with the past energies. Accepted: these are stepped once a subframe; refused: they stay. Returns 255 where `energies` has
/// another length, too.
#[unsafe(no_mangle)]
pub extern "C" fn mr74_frame_erased(
    sheet: &[u8],
    state: &mut [u8],
    out: &mut [u8],
    rows: &mut [u8],
    places: &mut [u8],
    energies: &mut [u8],
) -> u32
    ensures { frame_return result state.new out.new rows.new places.new energies.new ≡ erased_bytes sheet.now state.old out.old rows.old places.old energies.old }
{
    capi::mr74_frame_erased(sheet, state, out, rows, places, energies)
}

/// The gains of one index. Accepted: pitch gain and code gain in `gains`, the energies after the subframe in `energies`; refused: 0 and 0, and the
/// energies stay. Returns number + 256 * place, or 255 where innovation, energies or gains has another length, and nothing is changed.
#[unsafe(no_mangle)]
pub extern "C" fn mr74_gain_decode(
    index: i16,
    innovation: &[u8],
    log_table: &[u8],
    pow_table: &[u8],
    energies: &mut [u8],
    gains: &mut [u8],
) -> u32
    ensures { gain_return result energies.new gains.new ≡ gain_bytes index innovation.now log_table.now pow_table.now energies.old gains.old }
{
    capi::mr74_gain_decode(index, innovation, log_table, pow_table, energies, gains)
}

/// The record's reader: the state in `state`, the length of the note, which is what the record begins with, in `note`; both zero where it refuses.
#[unsafe(no_mangle)]
pub extern "C" fn mr74_read(bytes: &[u8], state: &mut [u8], note: &mut usize) -> u32
    ensures { read_return result state.new note.new ≡ read_bytes bytes.now state.old note.old }
{
    capi::mr74_read(bytes, state, note)
}

/// The record's writer: the record of `state` in `bytes`, which stay as they are where it refuses.
#[unsafe(no_mangle)]
pub extern "C" fn mr74_write(state: &[u8], bytes: &mut [u8]) -> u32
    ensures { write_return result bytes.new ≡ write_bytes state.now bytes.old }
{
    capi::mr74_write(state, bytes)
}
