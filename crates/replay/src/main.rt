// Runs the recorded answers of the reference, the files of data/, through the stages and the six calls, and says for each file how many records there are
// and how many differ. A record is a row of 16-bit words, low byte first: inputs, then answers.
#![tactic(auto)]

ghost use Rattle.std.specs.Prelude.{◌≤◌};

mod concealment;
mod erased;
mod filters;
mod frames;
mod gains;
mod records;
mod stages;

use recorded::{Reader, is_whole};
use std::io::Read;
use std::rt::Files;
use std::{fs, io};

#[derive(Drop)]
struct Counts {
    records: u64,
    different: u64,
}

// Whether the stage agrees with the next record, of so many bytes; None where there is none.
fn record_agrees<R: Read, F: Fn(&mut Reader) -> Option<bool>>(
    input: &mut R,
    bytes: &mut [u8],
    agrees: &F,
) -> io::Result<Option<bool>>
    requires { F.IsAlwaysCallable agrees.now }
{
    let n = sheets::read_full(input, bytes)?;
    if n == 0 {
        return Ok(None);
    }
    if n < bytes.len() {
        return Ok(Some(false));
    }
    let mut record = Reader::new(bytes);
    let agreed = agrees(&mut record);
    Ok(Some(is_whole(agreed, &record)))
}

// All the records of a file, at most a million: nothing says that a file ends.
fn run<R: Read, F: Fn(&mut Reader) -> Option<bool>>(
    input: &mut R,
    size: usize,
    agrees: &F,
) -> io::Result<Counts>
    requires size { size ≤ 2048 }
    requires agrees { F.IsAlwaysCallable agrees.now }
{
    let mut buffer = [0u8; 2048];
    let mut counts = Counts {
        records: 0,
        different: 0,
    };
    for _ in 0..1_000_000 {
        let Some(agrees) = record_agrees(input, &mut buffer[..size], agrees)? else {
            break;
        };
        counts.records += 1;
        if !agrees {
            counts.different += 1;
        }
    }
    Ok(counts)
}

fn file<F: Fn(&mut Reader) -> Option<bool>>(
    rt: &(impl Files + Print),
    name: &str,
    words: usize,
    agrees: F,
) -> io::Result<()>
    requires words { words ≤ 1024 }
    requires agrees { F.IsAlwaysCallable agrees }
{
    print!(rt; "{name}")?;
    let Ok(mut input) = fs::open(rt, name) else {
        return println!(rt; ": missing");
    };
    let counts = run(&mut input, 2 * words, &agrees)?;
    println!(rt;
        ": {} records, {} different",
        counts.records, counts.different
    )
}

// The version 1 record of zeros, and the record of its state.
fn cut_records(rt: &impl Print) -> io::Result<()> {
    let first = records::first_zeros();
    let read = outcome::number(record::answer_of(&first).outcome);
    let different = records::cuts(&first);
    println!(rt; "version 1 record of zeros: {read} read, 402 cuts, {different} different")?;
    let mut r = [0; record::RECORD_BYTES];
    let written = outcome::number(records::write_zeros(&mut r));
    let read = outcome::number(record::answer_of(&r).outcome);
    let different = records::cuts(&r);
    println!(rt;
        "record of its state: {written} written, {read} read, 434 cuts, {different} different"
    )
}

fn main(rt: HostRuntime) -> io::Result<()> {
    file(&rt, "lsp.bin", 20, stages::lsp)?;
    file(&rt, "coefficient.bin", 3, stages::coefficient)?;
    file(&rt, "convert.bin", 21, stages::convert)?;
    file(&rt, "interpolate.bin", 64, stages::interpolate)?;
    file(&rt, "lag.bin", 5, stages::lag)?;
    file(&rt, "predict.bin", 196, stages::predict)?;
    file(&rt, "energy.bin", 42, filters::energy)?;
    file(&rt, "inverse_sqrt.bin", 4, filters::inverse_sqrt)?;
    file(&rt, "match_energy.bin", 120, filters::match_energy)?;
    file(&rt, "gain_control.bin", 122, filters::gain_control)?;
    file(&rt, "synthesis.bin", 112, filters::synthesis)?;
    file(&rt, "postfilter.bin", 408, filters::postfilter)?;
    file(&rt, "frame_kept.bin", 816, frames::frame)?;
    file(&rt, "frame_extreme.bin", 816, frames::frame)?;
    file(&rt, "refused.bin", 401, frames::refused)?;
    file(&rt, "record_read.bin", 443, records::record_read)?;
    file(&rt, "record_write.bin", 433, records::record_write)?;
    file(&rt, "gain_decode.bin", 117, gains::decode)?;
    file(&rt, "gain_refused.bin", 79, gains::refused)?;
    file(&rt, "frame_indexed.bin", 886, gains::frame)?;
    file(&rt, "refused_indexed.bin", 477, gains::refused_frame)?;
    file(&rt, "pitch_conceal.bin", 9, concealment::pitch)?;
    file(&rt, "conceal_energy.bin", 8, concealment::energy)?;
    file(&rt, "gain_conceal.bin", 31, concealment::conceal)?;
    file(&rt, "gain_update.bin", 33, concealment::update)?;
    file(&rt, "frame_erased.bin", 813, erased::frame)?;
    file(&rt, "frame_mixed.bin", 891, erased::mixed)?;
    file(&rt, "refused_erased.bin", 405, erased::refused)?;
    cut_records(&rt)
}
