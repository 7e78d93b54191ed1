// Erased frames: the first of a call, and one after a good frame; and the gains of each attenuation stage.
ghost use Rattle.std.specs.Prelude.{◌<◌};

use super::records::{fields, read_back, zero_state};
use basicop::{Gains, Q1, Q14};
use gain::GainDecoder;
use gain_concealment::GainConcealment;
use pitch::{Fraction, PitchDecoder, PitchLag};
use state::State;
use std::io;

const LSFS: [i16; 10] = [
    1384, 2077, 3420, 5108, 6742, 8122, 9863, 11092, 12714, 13701,
];

// two pulses a subframe
fn innovation() -> [i16; 160] {
    let mut pulses = [0; 160];
    for subframe in 0..4 {
        pulses[40 * subframe] = 8191;
        pulses[40 * subframe + 7] = -8191;
    }
    pulses
}

fn erased_sheet(stage: i16) -> [i16; 171] {
    let mut sheet = [0; 171];
    sheet[..10].copy_from_slice(&LSFS);
    sheet[10] = stage;
    sheet[11..].copy_from_slice(&innovation());
    sheet
}

// its fourth lag is 58
fn frame_sheet() -> [i16; 182] {
    let mut sheet = [0; 182];
    sheet[..10].copy_from_slice(&LSFS);
    sheet[10..14].copy_from_slice(&[120, 15, 120, 15]);
    sheet[14..22].copy_from_slice(&[20000, 1000, 20000, 1000, 20000, 1000, 20000, 1000]);
    sheet[22..].copy_from_slice(&innovation());
    sheet
}

// the lags of an erased frame
fn lags(last_lag: i16) -> [PitchLag; 4] {
    let last = PitchLag {
        samples: last_lag.cast_unsigned(),
        fraction: Fraction::Zero,
    };
    let a = PitchDecoder { previous: last }.conceal();
    let b = PitchDecoder { previous: a }.conceal();
    let c = PitchDecoder { previous: b }.conceal();
    let d = PitchDecoder { previous: c }.conceal();
    [a, b, c, d]
}

// the gains of an erased frame
fn concealed(gains: GainConcealment, stage: usize) -> [Gains; 4]
    requires { stage < 7 }
{
    let a = gains.conceal(stage);
    let b = a.next.conceal(stage);
    let c = b.next.conceal(stage);
    let d = c.next.conceal(stage);
    [a.gains, b.gains, c.gains, d.gains]
}

// lags and gains, then what the call of an erased sheet leaves
fn erased_frame(rt: &impl Print, name: &str, state: State, stage: usize) -> io::Result<State>
    requires { stage < 7 }
{
    let before = state.concealment;
    let gains = concealed(before.gains, stage);
    for (lag, gains) in lags(before.last_lag).iter().zip(&gains) {
        let (samples, thirds) = (lag.samples, lag.fraction.thirds());
        let (pitch, code) = (gains.pitch.0, gains.code.0);
        println!(rt; "{name}: lag {samples}, thirds {thirds}, gains {pitch} {code}")?;
    }
    let mut samples = [1; 160];
    let sheet = erased_sheet(stage as i16);
    let answer = mr74::frame_erased(&sheet, state, GainDecoder::default(), &mut samples);
    let number = outcome::number(answer.frame.outcome);
    let peak = lines::peak(samples);
    let [a, b, c, d] = answer.gain_decoder.energies;
    println!(rt; "{name}: refusal {number}, peak {peak}, energies {a} {b} {c} {d}")?;
    fields(rt, name, answer.frame.next.concealment)?;
    Ok(answer.frame.next)
}

fn good_frame(rt: &impl Print, state: State) -> io::Result<State> {
    let mut samples = [0; 160];
    let answer = mr74::frame(&frame_sheet(), state, &mut samples);
    let number = outcome::number(answer.outcome);
    println!(rt; "good frame: refusal {number}")?;
    fields(rt, "good frame", answer.next.concealment)?;
    Ok(answer.next)
}

pub fn frames(rt: &impl Print) -> io::Result<()> {
    erased_frame(rt, "erased at once", zero_state(), 0)?;
    let state = good_frame(rt, zero_state())?;
    let state = erased_frame(rt, "erased after it", state, 1)?;
    read_back(rt, state)
}

// with last good gains 0 0
fn gains_after(
    pitch_history: [i16; 5],
    code_history: [i16; 5],
    pitch: i16,
    code: i16,
) -> GainConcealment {
    GainConcealment {
        pitch_history,
        code_history,
        past: Gains {
            pitch: Q14(pitch),
            code: Q1(code),
        },
        last_good: Gains {
            pitch: Q14(0),
            code: Q1(0),
        },
    }
}

const PITCH: [i16; 5] = [100, 200, 300, 400, 500];

const CODE: [i16; 5] = [50, 40, 30, 20, 10];

// each subframe's after past gains below the medians, the first's of each stage after past gains above them, and of the same fives in another arrangement
pub fn stages(rt: &impl Print) -> io::Result<()> {
    for gains in concealed(gains_after(PITCH, CODE, 250, 35), 0) {
        println!(rt; "past 250 35, stage 0: {} {}", gains.pitch.0, gains.code.0)?;
    }
    for stage in 0..7 {
        let [gains, ..] = concealed(gains_after(PITCH, CODE, 1000, 1000), stage);
        println!(rt;
            "past 1000 1000, stage {stage}: {} {}",
            gains.pitch.0, gains.code.0
        )?;
    }
    let pitch = [400, 100, 500, 200, 300];
    let code = [30, 10, 40, 50, 20];
    let [gains, ..] = concealed(gains_after(pitch, code, 1000, 1000), 6);
    println!(rt;
        "the same arranged otherwise, stage 6: {} {}",
        gains.pitch.0, gains.code.0
    )
}

fn sent(pitch: i16, code: i16) -> Gains {
    Gains {
        pitch: Q14(pitch),
        code: Q1(code),
    }
}

// the gains of a good frame after an erased one, each held to the last good ones, of which the first are 8000 and 300; and lags at the end of their range
pub fn held(rt: &impl Print) -> io::Result<()> {
    let mut gains = gains_after([0; 5], [0; 5], 0, 0);
    for _ in 0..4 {
        gains = gains.update_good(sent(8000, 300), false).next;
    }
    for _ in 0..4 {
        gains = gains.conceal(2).next;
    }
    for (pitch, code) in [(9000, 200), (7000, 400), (9000, 100), (8000, 50)] {
        let used = gains.update_good(sent(pitch, code), true);
        println!(rt;
            "held {pitch} {code}: {} {}",
            used.gains.pitch.0, used.gains.code.0
        )?;
        gains = used.next;
    }
    for last in [142, 143, 144] {
        let [a, b, c, d] = lags(last).map(|lag| lag.samples);
        println!(rt; "after lag {last}: {a} {b} {c} {d}")?;
    }
    Ok(())
}
