// The call of one index over bytes: its tables and its gains.
ghost use Rattle.std.specs.Prelude.{◌≡◌};
ghost use Rattle.coding.specs.Bytes.{words};
ghost use Rattle.gain.specs.Call.{gain_call};
ghost use Rattle.capi.specs.Frames.{table_in};
ghost use Rattle.capi.specs.Gains.{gain_pair_bytes, gain_return, gain_bytes};

use super::lent::{as_lent, energies_in, lent_numbers, write_energies};
use super::{GAINS_BYTES, INNOVATION_BYTES, TABLE, UNFIT, code};
use basicop::{Gains, Q13};
use gain::{GainAnswer, GainDecoder};

// The call of the bytes of an innovation and of the tables.
fn decode_in(
    index: i16,
    innovation: &[u8; INNOVATION_BYTES],
    log_table: &[u8],
    pow_table: &[u8],
    energies: GainDecoder,
) -> GainAnswer
    ensures { result ≡ gain_call (table_in log_table.now) (table_in pow_table.now) index (words innovation.now) energies.energies }
{
    let logs: Option<[i16; TABLE]> = lent_numbers(log_table);
    let pows: Option<[i16; TABLE]> = lent_numbers(pow_table);
    let sharpened = Q13(coding::numbers_in(innovation));
    energies.decode(index, sharpened, as_lent(&logs), as_lent(&pows))
}

// The bytes of pitch gain and code gain.
fn write_gains(gains: Gains, out: &mut [u8; GAINS_BYTES])
    ensures { out.new ≡ gain_pair_bytes gains }
{
    coding::put(out, &[gains.pitch.0, gains.code.0]);
}

/// The gains of one index. Accepted: pitch gain and code gain in `gains`, the energies after the subframe in `energies`; refused: 0 and 0, and the
/// energies stay. Returns number + 256 * place, or 255 where innovation, energies or gains has another length, and nothing is changed.
pub fn mr74_gain_decode(
    index: i16,
    innovation: &[u8],
    log_table: &[u8],
    pow_table: &[u8],
    energies: &mut [u8],
    gains: &mut [u8],
) -> u32
    ensures { gain_return result energies.new gains.new ≡ gain_bytes index innovation.now log_table.now pow_table.now energies.old gains.old }
{
    let Some(innovation) = innovation.as_array() else {
        return UNFIT;
    };
    let Some(energies) = energies.as_mut_array() else {
        return UNFIT;
    };
    let Some(gains) = gains.as_mut_array() else {
        return UNFIT;
    };
    let answer = decode_in(
        index,
        innovation,
        log_table,
        pow_table,
        energies_in(energies),
    );
    write_energies(answer.gain_decoder, energies);
    write_gains(answer.gains, gains);
    code(answer.outcome)
}
