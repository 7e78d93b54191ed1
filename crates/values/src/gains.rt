// The gains of indices, and a frame of an index sheet: with the tables of logarithm and power as TS 26.073 prints them, which are the caller's.
use super::records::zero_state;
use basicop::Q13;
use gain::GainDecoder;
use std::io;

const LOG_TABLE: [i16; 33] = [
    0, 1455, 2866, 4236, 5568, 6863, 8124, 9352, 10549, 11716, 12855, 13967, 15054, 16117, 17156,
    18172, 19167, 20142, 21097, 22033, 22951, 23852, 24735, 25603, 26455, 27291, 28113, 28922,
    29716, 30497, 31266, 32023, 32767,
];

const POW_TABLE: [i16; 33] = [
    16384, 16743, 17109, 17484, 17867, 18258, 18658, 19066, 19484, 19911, 20347, 20792, 21247,
    21713, 22188, 22674, 23170, 23678, 24196, 24726, 25268, 25821, 26386, 26964, 27554, 28158,
    28774, 29405, 30048, 30706, 31379, 32066, 32767,
];

// index, pitch gain, code gain, and the energies after
fn gains(
    rt: &impl Print,
    index: i16,
    innovation: [i16; 40],
    pow_table: &[i16],
    energies: [i16; 4],
) -> io::Result<()> {
    let answer = GainDecoder { energies }.decode(index, Q13(innovation), &LOG_TABLE, pow_table);
    let (pitch, code) = (answer.gains.pitch.0, answer.gains.code.0);
    let [a, b, c, d] = answer.gain_decoder.energies;
    println!(rt; "gains {index}: {pitch} {code}, energies {a} {b} {c} {d}")
}

// an innovation that begins with two numbers, and is 0 after them
fn beginning(first: i16, second: i16) -> [i16; 40] {
    let mut innovation = [0; 40];
    innovation[0] = first;
    innovation[1] = second;
    innovation
}

// with the opening energies and the standard's tables
fn opened_gains(rt: &impl Print) -> io::Result<()> {
    let GainDecoder { energies: opening } = GainDecoder::default();
    let mut pulses = [0; 40];
    pulses[0] = 8191;
    pulses[10] = 8191;
    pulses[21] = -8192;
    pulses[37] = -8192;
    gains(rt, 40, beginning(6, 0), &POW_TABLE, opening)?;
    gains(rt, 0, [0; 40], &POW_TABLE, opening)?;
    gains(rt, 64, pulses, &POW_TABLE, opening)?;
    gains(rt, 0, [32767; 40], &POW_TABLE, opening)?;
    gains(rt, 127, beginning(100, 0), &[0; 33], opening)
}

// with other energies, one row of them clamping the first of the predictor's sums
pub fn decoded_gains(rt: &impl Print) -> io::Result<()> {
    opened_gains(rt)?;
    let rising = [1000, 2000, 3000, 4000];
    let falling = [4000, 3000, 2000, 1000];
    gains(rt, 10, beginning(100, -100), &POW_TABLE, rising)?;
    gains(rt, 10, beginning(100, -100), &POW_TABLE, falling)?;
    let clamping = [32767, -32768, -32768, -32768];
    gains(rt, 0, [0; 40], &[1000; 33], clamping)
}

// LSFs, pitch indices and gain indices of a sheet whose samples 40 and 42 show each fault on the way to its gains; its innovation is 2000 at the start of
// subframes 1, 2 and 3, and 0 elsewhere
const HEAD: [i16; 18] = [
    1400, 2800, 4200, 5600, 7000, 8400, 9800, 11200, 12600, 14000, 4, 6, 18, 22, 121, 63, 92, 78,
];

// of it
const GAINS: [i16; 8] = [21318, 32767, 10300, 1413, 14406, 5278, 13714, 13485];

pub fn index_frame(rt: &impl Print) -> io::Result<()> {
    let mut sheet = [0; 178];
    sheet[..18].copy_from_slice(&HEAD);
    sheet[58] = 2000;
    sheet[98] = 2000;
    sheet[138] = 2000;
    let mut samples = [0; 160];
    let answer = mr74::frame_indexed(
        &sheet,
        zero_state(),
        &LOG_TABLE,
        &POW_TABLE,
        GainDecoder::default(),
        &mut samples,
    );
    let [a, b, c, d] = answer.gain_decoder.energies;
    println!(rt;
        "index frame: samples 40 and 42 are {} and {}, energies {a} {b} {c} {d}",
        samples[40], samples[42]
    )
}

// the same sheet with its gains in place of their indices
pub fn frame_of_gains(rt: &impl Print) -> io::Result<()> {
    let mut sheet = [0; 182];
    sheet[..14].copy_from_slice(&HEAD[..14]);
    sheet[14..22].copy_from_slice(&GAINS);
    sheet[62] = 2000;
    sheet[102] = 2000;
    sheet[142] = 2000;
    let mut samples = [0; 160];
    let answer = mr74::frame(&sheet, zero_state(), &mut samples);
    let number = outcome::number(answer.outcome);
    println!(rt;
        "frame of its gains: refusal {number}, samples 40 and 42 are {} and {}",
        samples[40], samples[42]
    )
}
