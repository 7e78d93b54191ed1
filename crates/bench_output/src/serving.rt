//! The whole program, over any reader and writer.
ghost use Rattle.std.specs.Prelude.{◌<◌, ◌^◌, Some, IfOk, OnOk, IfSome, length};
ghost use Rattle.std.specs.Io.KnownBytes.{Appends};
ghost use Rattle.lists.specs.Parts.{joined};
ghost use Rattle.sheets.specs.Rounds.{rounds};
ghost use Rattle.bench_output.specs.Output.{bench_output};
ghost use Rattle.bench_output.specs.Steps.{carried, sheet_step};
ghost use Rattle.bench_output.specs.Serving.{ServesSheet};

use crate::{Carried, step};
use mr74::SHEET_BYTES;
use sheets::ProgramError;
use state::State;
use std::io::{Read, Write};

// Reads what comes of a sheet, takes the step on it, writes what the step makes, and gives the state for the next.
fn serve_sheet<R: Read, W: Write>(
    input: &mut R,
    output: &mut W,
    carried: Carried,
) -> Result<Option<State>, ProgramError>
    ensures { IfOk result (λ next. ServesSheet (R.remaining input.old) (R.remaining input.new) (W.contents output.old) (W.contents output.new) carried next) }
{
    let step = sheets::on_bytes::<SHEET_BYTES, _, _, _>(input, |bytes| step(bytes, carried))?;
    sheets::write_line(output, &step.made)?;
    Ok(step.next)
}

// Nothing says that the input ends, so the loop ends with the greatest number.
fn run<R: Read, W: Write>(input: &mut R, output: &mut W, first: State) -> Result<(), ProgramError>
    ensures { OnOk result (IfSome (R.remaining input.old)
        (λ xs. Appends (W.contents output.old) (W.contents output.new) (joined (rounds sheet_step u64.MAX (Some (carried 1 first)) xs)))) }
{
    let mut next = Some(first);
    for number in 1..=u64::MAX {
        let Some(state) = next else { break };
        next = serve_sheet(input, output, Carried { number, state })?;
    }
    Ok(())
}

/// Reads all, and writes the lines.
pub fn serve<R: Read, W: Write>(input: &mut R, output: &mut W) -> Result<(), ProgramError>
    ensures { OnOk result (IfSome (R.remaining input.old)
        (λ xs. length xs < 2 ^ 64 → Appends (W.contents output.old) (W.contents output.new) (bench_output xs))) }
{
    let opening = sheets::read_record(input)?;
    sheets::write_line(output, &opening.made)?;
    if let Some(state) = opening.next {
        run(input, output, state)?;
    }
    Ok(())
}

#[cfg(test)]
mod tests {
    use super::*;
    use std::io;
    use std::io::ErrorKind;
    use std::test::Fail;

    // An accepted record of zeros, and one byte of a sheet.
    fn input() -> [u8; 403] {
        let mut bytes = [0; 403];
        bytes[394..402].copy_from_slice(&[0x4D, 0x37, 0x01, 0x00, 0x8A, 0x01, 0xC5, 0x00]);
        bytes
    }

    // Gives lent bytes, and then it fails.
    #[derive(Drop)]
    struct Failing<'a> {
        left: &'a [u8],
    }

    impl<'a> Read for Failing<'a> {
        fn read(&mut self, buf: &mut [u8]) -> io::Result<usize> {
            if self.left.is_empty() {
                return Err(io::Error::from(ErrorKind::ConnectionReset));
            }
            self.left.read(buf)
        }
    }

    // Takes nothing.
    #[derive(Drop)]
    struct Full {}

    impl Write for Full {
        fn write(&mut self, _buf: &[u8]) -> io::Result<usize> {
            Err(io::Error::from(ErrorKind::StorageFull))
        }

        fn flush(&mut self) -> io::Result<()> {
            Ok(())
        }
    }

    #[test]
    fn serves_lent_bytes(rt: HostRuntime) -> Result<(), Fail> {
        let bytes = input();
        let mut output = Vec::new(rt.alloc());
        assert!(rt; serve(&mut &bytes[..], &mut output).is_ok());
        assert_eq!(rt; output.as_slice(), b"1 cut\n".as_slice());
        Ok(())
    }

    // In the record and in the first sheet: nothing that came is told as cut.
    #[test]
    fn tells_a_failed_read(rt: HostRuntime) {
        let bytes = input();
        for count in [0, 401, 402, 403] {
            let mut output = Vec::new(rt.alloc());
            let mut reader = Failing {
                left: &bytes[..count],
            };
            let served = serve(&mut reader, &mut output);
            assert!(rt; matches!(served, Err(ProgramError::Read(_))));
            assert!(rt; output.is_empty());
        }
    }

    #[test]
    fn tells_a_failed_write(rt: HostRuntime) {
        let bytes = input();
        let served = serve(&mut &bytes[..], &mut Full {});
        assert!(rt; matches!(served, Err(ProgramError::Write(_))));
    }
}
