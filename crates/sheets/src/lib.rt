//! What a program of the bench reads: a version 1 record, then sheets one by one.
#![tactic(auto)]

ghost use Rattle.std.specs.Prelude.{◌≡◌, ◌≢◌, ◌<◌, ◌^◌, ℕ, List, length, take, IfOk, IfErr, OnOk};
ghost use Rattle.std.specs.Fn.{FnOnceReturnsAt};
ghost use Rattle.std.specs.Io.{ReadsAtMost};
ghost use Rattle.std.specs.Io.KnownBytes.{ReadConsumes, Appends};
ghost use Rattle.std.specs.IoError.{error_kind};
ghost use Rattle.mr74.specs.Frame.{call_result};
ghost use Rattle.sheets.specs.Sheets.{record_bytes, sheet_call, opening_step};
ghost use Rattle.sheets.specs.Reading.{TakesFirst, IsOfRead, IsOfWrite};

use lines::Line;
use mr74::{FrameAnswer, SAMPLES, SHEET, SHEET_BYTES};
use record::{Answer, FIRST_RECORD_BYTES};
use state::State;
use std::io;
use std::io::{ErrorKind, Read, Write};
use thiserror::Error;

/// What a step of a program makes, and what it carries to the next one, where there is a next one. It is `Copy` where both are, and `Clone`.
#[derive(Clone, Copy, Drop)]
pub struct Step<T, C> {
    pub made: T,
    pub next: Option<C>,
}

/// Why a program of the bench stops before its end: what a read or a write answered.
#[derive(Debug, Drop, Error)]
pub enum ProgramError {
    #[error("reading standard input: {0}")]
    Read(io::Error),
    #[error("writing standard output: {0}")]
    Write(io::Error),
}

// ---- reading
// One read; where a signal interrupts it, it is tried again.
fn read_some<R: Read>(input: &mut R, bytes: &mut [u8]) -> io::Result<usize>
    ensures bound { ReadsAtMost result bytes.new }
    ensures bytes { ReadConsumes (R.remaining input.old) (R.remaining input.new) result bytes.new }
    ensures retried { IfErr result (λ e. error_kind e ≢ ErrorKind.Interrupted) }
{
    for _ in 0..u64::MAX {
        match input.read(bytes) {
            Ok(n) => return Ok(n),
            Err(error) => {
                if error.kind() != ErrorKind::Interrupted {
                    return Err(error);
                }
            }
        }
    }
    Err(io::Error::from(ErrorKind::TimedOut))
}

/// Reads until the lent bytes are full or the input ends, and says how many came. Nothing beyond them is read.
pub fn read_full<R: Read>(input: &mut R, bytes: &mut [u8]) -> io::Result<usize>
    ensures bound { ReadsAtMost result bytes.new }
    ensures first { IfOk result (λ n. TakesFirst (R.remaining input.old) (R.remaining input.new) (length bytes.new) (take n bytes.new)) }
    ensures retried { IfErr result (λ e. error_kind e ≢ ErrorKind.Interrupted) }
{
    let mut done = 0;
    while done < bytes.len() {
        let n = read_some(input, &mut bytes[done..])?;
        if n == 0 {
            break;
        }
        done += n;
    }
    Ok(done)
}

/// Reads at most N bytes from the input, and takes a step on what came.
pub fn on_bytes<const N: usize, R: Read, T, F: FnOnce(&[u8]) -> T>(
    input: &mut R,
    step: F,
) -> Result<T, ProgramError>
    requires room { N < 2 ^ 63 }
    requires step { F.IsAlwaysCallable step }
    ensures made { IfOk result (λ made. (came : List ℕ) × TakesFirst (R.remaining input.old) (R.remaining input.new) N came × FnOnceReturnsAt F.FnOnce step came made) }
    ensures err { IfErr result IsOfRead }
{
    let mut bytes = [0u8; N];
    match read_full(input, &mut bytes) {
        Ok(n) => Ok(step(&bytes[..n])),
        Err(error) => Err(ProgramError::Read(error)),
    }
}

// ---- writing
/// Writes a line.
pub fn write_line<W: Write>(output: &mut W, line: &Line) -> Result<(), ProgramError>
    ensures ok { OnOk result (Appends (W.contents output.old) (W.contents output.new) line.now) }
    ensures err { IfErr result IsOfWrite }
{
    match output.write_all(line.as_bytes()) {
        Ok(()) => Ok(()),
        Err(error) => Err(ProgramError::Write(error)),
    }
}

// ---- the record
/// The first step, on the record as far as it came: a refused one is told, and nothing more.
pub fn open_call(bytes: &[u8]) -> Step<Line, State>
    ensures { result ≡ opening_step bytes.now }
{
    let Answer { outcome, state } = record::answer_of(bytes);
    match outcome {
        Ok(()) => Step {
            made: Line::new(),
            next: Some(state),
        },
        Err(refusal) => Step {
            made: lines::state_line(refusal.number()),
            next: None,
        },
    }
}

/// Reads the record from the input, as many bytes as one of version 1 has, and takes the first step on what came of it.
pub fn read_record<R: Read>(input: &mut R) -> Result<Step<Line, State>, ProgramError>
    ensures step { IfOk result (λ s. (came : List ℕ) × TakesFirst (R.remaining input.old) (R.remaining input.new) record_bytes came × (s ≡ opening_step came)) }
    ensures err { IfErr result IsOfRead }
{
    on_bytes::<FIRST_RECORD_BYTES, _, _, _>(input, |bytes| open_call(bytes))
}

// ---- a sheet
/// What a sheet's frame call gives.
#[derive(Drop)]
pub struct Decoded {
    pub answer: FrameAnswer,
    pub samples: [i16; SAMPLES],
}

/// The frame call of a sheet's bytes.
#[tactic(auto, using(crate::proofs::Opening::sheet_called))]
pub fn decode_bytes(bytes: &[u8; SHEET_BYTES], state: State) -> Decoded
    ensures { call_result result.answer result.samples ≡ sheet_call bytes.now state }
{
    let sheet: [i16; SHEET] = coding::numbers_in(bytes);
    let mut samples = [0i16; SAMPLES];
    let answer = mr74::frame(&sheet, state, &mut samples);
    Decoded { answer, samples }
}

#[cfg(test)]
mod tests {
    use super::*;
    use std::io::ErrorKind;
    use std::test::Fail;

    // Gives 7, 8 and 9, one at a read, and then it fails, or ends.
    #[derive(Drop)]
    struct Slow {
        given: u8,
        fails: bool,
    }

    impl Read for Slow {
        fn read(&mut self, buf: &mut [u8]) -> io::Result<usize> {
            if buf.is_empty() {
                return Ok(0);
            }
            if self.given < 3 {
                buf[0] = 7 + self.given;
                self.given += 1;
                return Ok(1);
            }
            if self.fails {
                return Err(io::Error::from(ErrorKind::ConnectionReset));
            }
            Ok(0)
        }
    }

    #[test]
    fn joins_short_reads(rt: HostRuntime) -> Result<(), Fail> {
        let mut input = Slow {
            given: 0,
            fails: false,
        };
        let mut bytes = [0u8; 2];
        assert_eq!(rt; read_full(&mut input, &mut bytes)?, 2);
        assert_eq!(rt; bytes, [7, 8]);
        let mut more = [0u8; 5];
        assert_eq!(rt; read_full(&mut input, &mut more)?, 1);
        assert_eq!(rt; more, [9, 0, 0, 0, 0]);
        Ok(())
    }

    #[test]
    fn leaves_what_follows(rt: HostRuntime) -> Result<(), Fail> {
        let mut input: &[u8] = &[1, 2, 3, 4, 5];
        let mut bytes = [0u8; 3];
        assert_eq!(rt; read_full(&mut input, &mut bytes)?, 3);
        assert_eq!(rt; bytes, [1, 2, 3]);
        assert_eq!(rt; input.len(), 2);
        Ok(())
    }

    // No sheet is cut by it, and no record.
    #[test]
    fn tells_a_failed_read(rt: HostRuntime) {
        let mut input = Slow {
            given: 0,
            fails: true,
        };
        let mut bytes = [0u8; SHEET_BYTES];
        let read = read_full(&mut input, &mut bytes);
        assert!(rt; read.is_err());
        input.given = 0;
        let record = read_record(&mut input);
        assert!(rt; matches!(record, Err(ProgramError::Read(_))));
    }

    // Counts its reads, of which the first may be interrupted, and gives what is asked for.
    #[derive(Drop)]
    struct Counting {
        reads: u64,
        interrupted: bool,
    }

    impl Read for Counting {
        fn read(&mut self, buf: &mut [u8]) -> io::Result<usize> {
            self.reads = self.reads.saturating_add(1);
            if self.interrupted {
                self.interrupted = false;
                return Err(io::Error::from(ErrorKind::Interrupted));
            }
            buf.fill(5);
            Ok(buf.len())
        }
    }

    // What is full is not read for again.
    #[test]
    fn reads_no_more_than_is_asked_for(rt: HostRuntime) -> Result<(), Fail> {
        let mut input = Counting {
            reads: 0,
            interrupted: false,
        };
        let mut bytes = [0u8; 3];
        assert_eq!(rt; read_full(&mut input, &mut bytes)?, 3);
        assert_eq!(rt; input.reads, 1);
        Ok(())
    }

    #[test]
    fn tries_an_interrupted_read_again(rt: HostRuntime) -> Result<(), Fail> {
        let mut input = Counting {
            reads: 0,
            interrupted: true,
        };
        let mut bytes = [0u8; 3];
        assert_eq!(rt; read_full(&mut input, &mut bytes)?, 3);
        assert_eq!(rt; bytes, [5, 5, 5]);
        assert_eq!(rt; input.reads, 2);
        Ok(())
    }

    // Takes nothing.
    #[derive(Drop)]
    struct Full {}

    impl Write for Full {
        fn write(&mut self, _buf: &[u8]) -> io::Result<usize> {
            Err(io::Error::from(ErrorKind::StorageFull))
        }

        fn flush(&mut self) -> io::Result<()> {
            Ok(())
        }
    }

    #[test]
    fn tells_a_failed_write(rt: HostRuntime) {
        let written = write_line(&mut Full {}, &lines::cut_line(1));
        assert!(rt; matches!(written, Err(ProgramError::Write(_))));
    }
}
