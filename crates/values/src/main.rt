//! Runs values to hold through the code, the starred ones among them (docs/BENCH.md, "Values to hold"), gains from their index and an index frame, erased
//! frames, records of both versions, means of peaks and shift reports, and prints each with its input.
#![tactic(auto)]

mod erased;
mod gains;
mod records;

use anyhow::Result;
use pitch::{Fraction, PitchLag};
use std::fmt::Display;
use std::io;

// name, input and answer in a line
fn line(
    rt: &impl Print,
    name: &str,
    input: impl Display + Drop,
    answer: impl Display + Drop,
) -> io::Result<()> {
    println!(rt; "{name} {input}: {answer}")
}

fn frequencies(rt: &impl Print) -> io::Result<()> {
    let lsf = [0i16, 128, 8191, 16383, 16384, 0, 0, 0, 0, 0];
    let lsp = spectral::lsf_to_lsp(lsf);
    for (input, answer) in lsf.iter().zip(&lsp).take(5) {
        line(rt, "LSF", *input, *answer)?;
    }
    Ok(())
}

// a lag in whole samples, then its thirds
fn lag(rt: &impl Print, name: &str, index: u8, l: PitchLag) -> io::Result<()> {
    line(rt, name, index, l.samples)?;
    line(rt, "thirds", index, l.fraction.thirds())
}

fn lags(rt: &impl Print) -> io::Result<()> {
    for index in [0, 196, 197, 255] {
        lag(rt, "lag", index, PitchLag::from_absolute(index))?;
    }
    Ok(())
}

fn relative_lags(rt: &impl Print) -> io::Result<()> {
    for (name, index, samples) in [("lag after 143", 31, 143), ("lag after 19", 0, 19)] {
        let before = PitchLag {
            samples,
            fraction: Fraction::Zero,
        };
        lag(rt, name, index, PitchLag::from_relative(index, before))?;
    }
    Ok(())
}

fn coefficients(rt: &impl Print) -> io::Result<()> {
    for value in [4096, -4096, -4097, i32::MAX] {
        line(rt, "coefficient", value, lpc::rounded_coefficient(value))?;
    }
    Ok(())
}

fn inverse_roots(rt: &impl Print) -> io::Result<()> {
    for value in [1, 2] {
        line(rt, "inverse root", value, energy::inverse_sqrt(value))?;
    }
    Ok(())
}

// of one sample among zeros
fn energies(rt: &impl Print) -> io::Result<()> {
    for sample in [-32768, -32767] {
        let mut samples = [0i16; 40];
        samples[0] = sample;
        line(rt, "energy", sample, energy::energy(samples))?;
    }
    Ok(())
}

// the first sample at which a step of the synthesis clamps, 40 where none does: zero history, row 4096, -4096, excitation 32767, then `second`
fn first_clamps(rt: &impl Print) -> io::Result<()> {
    let mut row = [0i16; 11];
    row[0] = 4096;
    row[1] = -4096;
    let mut excitation = [0i16; 40];
    excitation[0] = 32767;
    for second in [0, 1] {
        excitation[1] = second;
        let r = synthesis::preview(row, excitation, [0i16; 10]);
        line(rt, "synthesis 32767,", second, r.place)?;
    }
    Ok(())
}

// of frames whose other samples are 0; -32768 has no opposite among the samples: 32767 is the largest
fn peaks(rt: &impl Print) -> io::Result<()> {
    for sample in [-32768, 32767, -32760, 32760, -32759, 32759, -1, 1] {
        let mut samples = [0i16; 160];
        samples[159] = sample;
        line(rt, "peak", sample, lines::peak(samples))?;
    }
    Ok(())
}

// of a frame with one sample below zero, a smaller one above it, and 0
fn peak_below_zero(rt: &impl Print) -> io::Result<()> {
    let mut samples = [0i16; 160];
    samples[0] = -32760;
    samples[159] = 32759;
    line(rt, "peak -32760,", 32759, lines::peak(samples))
}

// none, and one in each subframe
const RETRIES: [[bool; 4]; 5] = [
    [false, false, false, false],
    [true, false, false, false],
    [false, true, false, false],
    [false, false, true, false],
    [false, false, false, true],
];

// the marks of peaks, a mark for each row of retries
fn marks(rt: &impl Print) -> io::Result<()> {
    for peak in [0, 32759, 32760, 32767, 32768] {
        let marks = RETRIES.map(|retries| lines::mark(peak, retries));
        print!(rt; "mark {peak}: ")?;
        rt.write_all(&marks)?;
        println!(rt; "")?;
    }
    Ok(())
}

// of numbers by their sum
fn means(rt: &impl Print) -> io::Result<()> {
    for sum in [73, 74, 1] {
        line(
            rt,
            "mean of two by their sum",
            sum,
            shift_report::mean(sum, 2),
        )?;
    }
    let sum = 2147450880;
    line(
        rt,
        "mean of 65535 by their sum",
        sum,
        shift_report::mean(sum, 65535),
    )
}

// the listing: a zero record, a zero sheet, one with only LSF 9 = 16385, and a byte
fn listing() -> [u8; 1131] {
    let mut input = [0u8; 1131];
    input[..402].copy_from_slice(&records::zero_record());
    input[784..786].copy_from_slice(&16385i16.to_le_bytes());
    input
}

// the same with LSFs 256 apart in its first sheet
fn spaced(listing: [u8; 1131]) -> [u8; 1131] {
    let mut input = listing;
    let lsf = [256, 512, 768, 1024, 1280, 1536, 1792, 2048, 2304, 2560];
    coding::put(&mut input[402..422], &lsf);
    input
}

// the shift reports of so many bytes of an input, behind a name
fn reports(rt: &impl Print, name: &str, input: &[u8], counts: &[usize]) -> Result<()> {
    for bytes in counts.iter().filter_map(|count| input.get(..*count)) {
        print!(rt; "{name} {} bytes: ", bytes.len())?;
        let mut rest: &[u8] = bytes;
        shift_report::serve(&mut rest, &mut io::writer(rt))?;
    }
    Ok(())
}

fn main(rt: HostRuntime) -> Result<()> {
    frequencies(&rt)?;
    lags(&rt)?;
    relative_lags(&rt)?;
    coefficients(&rt)?;
    inverse_roots(&rt)?;
    energies(&rt)?;
    first_clamps(&rt)?;
    gains::decoded_gains(&rt)?;
    gains::index_frame(&rt)?;
    gains::frame_of_gains(&rt)?;
    erased::frames(&rt)?;
    erased::stages(&rt)?;
    erased::held(&rt)?;
    records::read_versions(&rt)?;
    peaks(&rt)?;
    peak_below_zero(&rt)?;
    marks(&rt)?;
    means(&rt)?;
    let input = listing();
    reports(&rt, "report of", &input, &[0, 402, 766, 1131])?;
    reports(&rt, "LSFs apart: report of", &spaced(input), &[766, 1131])?;
    let short = records::short_record();
    reports(&rt, "trailer of version 2: report of", &short, &[402])
}
