// Handover records: the bench's, which is of version 1, those of version 2, and one as long as the first with the trailer of the second.
use coding::SIGNAL_BYTES;
use record::{FIRST_RECORD_BYTES, RECORD_BYTES};
use state::{Concealment, State};
use std::io;

// tag, version, distance and count of each version
const FIRST_TRAILER: [u8; 8] = [0x4D, 0x37, 0x01, 0x00, 0x8A, 0x01, 0xC5, 0x00];

const TRAILER: [u8; 8] = [0x4D, 0x37, 0x02, 0x00, 0xAA, 0x01, 0xD5, 0x00];

// a version 1 body of zeros, and a trailer
fn zeros_before(trailer: [u8; 8]) -> [u8; FIRST_RECORD_BYTES] {
    let mut bytes = [0; FIRST_RECORD_BYTES];
    bytes[SIGNAL_BYTES..].copy_from_slice(&trailer);
    bytes
}

// the bench's record of zeros
pub fn zero_record() -> [u8; FIRST_RECORD_BYTES] {
    zeros_before(FIRST_TRAILER)
}

// the same with the trailer of version 2, whose body has 32 bytes more
pub fn short_record() -> [u8; FIRST_RECORD_BYTES] {
    zeros_before(TRAILER)
}

// zeros but for the last lag
pub fn zero_state() -> State {
    record::answer_of(&zero_record()).state
}

// last lag, five pitch gains, five code gains, past gains, last good gains, erased mark
pub fn fields(rt: &impl Print, name: &str, concealment: Concealment) -> io::Result<()> {
    let (lag, mark) = (concealment.last_lag, concealment.erased);
    let gains = concealment.gains;
    let [a, b, c, d, e] = gains.pitch_history;
    let [p, q, r, s, t] = gains.code_history;
    let (past, good) = (gains.past, gains.last_good);
    print!(rt; "{name}: fields {lag} | {a} {b} {c} {d} {e} | {p} {q} {r} {s} {t} | ")?;
    println!(rt;
        "{} {} | {} {} | {mark}",
        past.pitch.0, past.code.0, good.pitch.0, good.code.0
    )
}

// the refusal of a read, and the fields from 197 on
fn read(rt: &impl Print, name: &str, bytes: &[u8]) -> io::Result<()> {
    let answer = record::answer_of(bytes);
    let number = outcome::number(answer.outcome);
    println!(rt; "{name}: refusal {number}")?;
    fields(rt, name, answer.state.concealment)
}

// a state's record of version 2, read back, and the record of what was read
pub fn read_back(rt: &impl Print, state: State) -> io::Result<()> {
    let mut bytes = [0; RECORD_BYTES];
    let written = outcome::number(record::write(state, &mut bytes));
    println!(rt; "record of version 2: {written} written")?;
    read(rt, "record of version 2", &bytes)?;
    let mut again = [0; RECORD_BYTES];
    let written = outcome::number(record::write(record::answer_of(&bytes).state, &mut again));
    let same = bytes == again;
    println!(rt; "record of version 2 once more: {written} written, the same bytes {same}")
}

pub fn read_versions(rt: &impl Print) -> io::Result<()> {
    read(rt, "record of version 1", &zero_record())?;
    read(
        rt,
        "402 bytes with the trailer of version 2",
        &short_record(),
    )
}
