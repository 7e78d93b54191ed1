// The handover record's calls on their records: what the call is given, then the answers of the reference.
ghost use Rattle.std.specs.Prelude.{◌↔◌, ◌-◌, ◌<◌, IsTrue, length, take, drop};
ghost use Rattle.record.specs.Record.{read_call};
ghost use Rattle.recorded.specs.Compare.{IsCutRefused};

use coding::{BODY_BYTES, SIGNAL_BYTES};
use outcome::Outcome;
use record::{FIRST_RECORD_BYTES, RECORD_BYTES};
use recorded::{Reader, outcome_agrees, state_same};

// Refusal and place, note's length and state that the reader gives.
pub fn record_read(record: &mut Reader) -> Option<bool> {
    let n = usize::from(record.bits()?);
    let bytes = record.array::<452>()?.get(..n)?;
    let answer = record::answer_of(bytes);
    let note = record::note(bytes);
    Some(
        outcome_agrees(record, answer.outcome)?
            && usize::from(record.bits()?) == note.len()
            && state_same(record.array::<BODY_BYTES>()?, answer.state),
    )
}

// What was lent, 0x55 in each byte before the write, begins with the recorded record, or is as it was where the write was refused.
pub fn record_write(record: &mut Reader) -> Option<bool> {
    let n = usize::from(record.bits()?);
    let state = coding::state_in(record.array::<BODY_BYTES>()?);
    let mut lent = [0x55; 452];
    let outcome = record::write(state, lent.get_mut(..n)?);
    let told = outcome_agrees(record, outcome)?;
    let written = record.array::<RECORD_BYTES>()?;
    let mut expected = [0x55; 452];
    if outcome.is_ok() {
        expected[..RECORD_BYTES].copy_from_slice(written);
    }
    Some(told && lent == expected)
}

// Whether the first n and the last n bytes of a record of zeros are refused as they should be.
fn cut_refused(zeros: &[u8], n: usize) -> bool
    requires { n < length zeros.now }
    ensures { IsTrue result
        ↔ IsCutRefused n (read_call (take n zeros.now)).answer.outcome (read_call (drop (length zeros.now - n) zeros.now)).answer.outcome }
{
    let first = record::answer_of(&zeros[..n]).outcome;
    let last = record::answer_of(&zeros[zeros.len() - n..]).outcome;
    recorded::cut_refused(n, first, last)
}

// How many lengths below a record's give another refusal.
pub fn cuts(zeros: &[u8]) -> usize {
    (0..zeros.len()).filter(|n| !cut_refused(zeros, *n)).count()
}

// The version 1 record of zeros: tag, version 1, distance 394, count 197 behind them.
pub fn first_zeros() -> [u8; FIRST_RECORD_BYTES] {
    let mut bytes = [0; FIRST_RECORD_BYTES];
    bytes[SIGNAL_BYTES..].copy_from_slice(&[0x4D, 0x37, 1, 0, 0x8A, 1, 0xC5, 0]);
    bytes
}

// The record of its state, zeros but for the last lag, put into the lent bytes.
pub fn write_zeros(lent: &mut [u8]) -> Outcome {
    record::write(coding::first_state_in(&[0; SIGNAL_BYTES]), lent)
}
