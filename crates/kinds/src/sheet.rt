// A sheet of any kind that its checks have accepted, and what it comes to: of four subframes lag, gains and innovation.
ghost use Rattle.std.specs.Prelude.{◌≡◌, Ok, ◌<◌, ◌≤◌, pos, ◌≤ℤ◌, length};
ghost use Rattle.outcome.specs.Checks.{first_met};
ghost use Rattle.pitch.specs.Lag.{lag_of};
ghost use Rattle.gain_concealment.specs.Laws.{Kept};
ghost use Rattle.kinds.specs.Sheet.{innovation_at};
ghost use Rattle.kinds.specs.Checks.{lsf_checks};
ghost use Rattle.kinds.specs.Kind.{kind_of};
ghost use Rattle.kinds.specs.Checked.{checked_kind};
ghost use Rattle.kinds.specs.Prepass.{kind_step, prepared_after};
ghost use Rattle.kinds.specs.Inner.{lag_list, gains_with, step_of, prepared_of};

use super::{GainMemory, Prepared, SAMPLES};
use crate::kind::CheckedKind;
use crate::lags::{Lags, conceal_lags, decode_lags};
use basicop::{Gains, Q1, Q13, Q14};
use decoder::{Inputs, Parameters};
use gain::GainDecoder;
use gain_concealment::UsedGains;
use pitch::PitchLag;
use state::Concealment;

/// A sheet that its checks have accepted: its count of numbers, its LSFs, and its kind's own.
#[derive(Clone, Copy)]
pub struct CheckedSheet<'a> {
    pub kind: CheckedKind<'a>,
    pub numbers: &'a [i16],
    ghost count: { length numbers.now ≡ (kind_of (checked_kind kind)).count },
    ghost lsfs: { first_met (lsf_checks numbers.now) ≡ Ok tt },
    ghost own: { first_met ((kind_of (checked_kind kind)).checks numbers.now) ≡ Ok tt },
}

impl CheckedSheet<'_> {
    // The lags of its subframes, after the last lag before it.
    fn lags(self, last_lag: i16) -> Lags
        requires { (pos 19 ≤ℤ last_lag) × (last_lag ≤ℤ pos 144) }
        ensures { lag_list result ≡ (kind_of (checked_kind self.entry.kind)).lags self.entry.numbers.now last_lag }
    {
        match self.kind {
            CheckedKind::Erased => conceal_lags(last_lag),
            _ => decode_lags(self.numbers),
        }
    }

    // The gains of a subframe, with its lag and its innovation, and the past energies after it.
    fn gains(
        self,
        subframe: usize,
        lag: PitchLag,
        innovation: Q13,
        erased: bool,
        memory: GainMemory,
    ) -> (UsedGains, GainDecoder)
        requires place { subframe < 4 }
        requires lawful { (19 ≤ lag.samples) × (lag.samples ≤ 144) }
        requires innovation { innovation.0 ≡ innovation_at (kind_of (checked_kind self.kind)).first self.numbers.now subframe }
        requires kept { Kept memory.concealment }
        ensures value { gains_with result.0 result.1 ≡ (kind_of (checked_kind self.entry.kind)).gains self.entry.numbers.now erased subframe (lag_of lag) memory }
        ensures kept { Kept result.0.next }
    {
        let sheet = self.numbers;
        match self.kind {
            CheckedKind::Frame => {
                let sent = Gains {
                    pitch: Q14(sheet[14 + 2 * subframe]),
                    code: Q1(sheet[15 + 2 * subframe]),
                };
                (
                    memory.concealment.update_good(sent, erased),
                    memory.gain_decoder,
                )
            }
            CheckedKind::Index(tables) => {
                let index = sheet[14 + subframe] as usize;
                let sharpened = excitation::sharpen(
                    innovation,
                    lag.samples as usize,
                    memory.sharpening,
                );
                let decoded = memory.gain_decoder.decode_gains(index, sharpened, tables);
                (
                    memory.concealment.update_good(decoded.gains, erased),
                    decoded.gain_decoder,
                )
            }
            CheckedKind::Erased => (
                memory.concealment.conceal(sheet[10] as usize),
                memory.gain_decoder.conceal_energy(),
            ),
        }
    }

    // What a subframe is decoded from, with its lag, and what goes on to the next.
    fn step(
        self,
        subframe: usize,
        lag: PitchLag,
        erased: bool,
        memory: GainMemory,
    ) -> (Parameters, GainMemory)
        requires place { subframe < 4 }
        requires lawful { (19 ≤ lag.samples) × (lag.samples ≤ 144) }
        requires kept { Kept memory.concealment }
        ensures value { step_of result.0 result.1 ≡ kind_step (kind_of (checked_kind self.entry.kind)) self.entry.numbers.now erased subframe (lag_of lag) memory }
        ensures kept { Kept result.1.concealment }
    {
        let first = self.numbers.len() - SAMPLES;
        let innovation = Q13(copy::stretch(self.numbers, first + 40 * subframe));
        let (used, gain_decoder) = self.gains(subframe, lag, innovation, erased, memory);
        let parameters = Parameters {
            lag,
            gains: used.gains,
            innovation,
        };
        let next = GainMemory {
            sharpening: excitation::next_sharpening(used.gains.pitch),
            gain_decoder,
            concealment: used.next,
        };
        (parameters, next)
    }

    // The erased mark that it leaves.
    fn mark(self) -> i16
        ensures { result ≡ (kind_of (checked_kind self.entry.kind)).mark }
    {
        match self.kind {
            CheckedKind::Erased => 1,
            _ => 0,
        }
    }

    /// What the sheet comes to, after the concealment before it and what comes to its first subframe.
    pub fn inputs(self, before: Concealment, memory: GainMemory) -> Prepared
        requires kept { Kept memory.concealment }
        requires lag { (pos 19 ≤ℤ before.last_lag) × (before.last_lag ≤ℤ pos 144) }
        ensures { prepared_of result ≡ prepared_after (kind_of (checked_kind self.entry.kind)) self.entry.numbers.now before memory }
    {
        let lags = self.lags(before.last_lag);
        let erased = before.erased == 1;
        let (a, memory) = self.step(0, lags.a, erased, memory);
        let (b, memory) = self.step(1, lags.b, erased, memory);
        let (c, memory) = self.step(2, lags.c, erased, memory);
        let (d, memory) = self.step(3, lags.d, erased, memory);
        let inputs = Inputs {
            lsfs: copy::stretch(self.numbers, 0),
            a,
            b,
            c,
            d,
        };
        Prepared {
            inputs,
            concealment: Concealment {
                last_lag: lags.d.samples as i16,
                gains: memory.concealment,
                erased: self.mark(),
            },
            gain_decoder: memory.gain_decoder,
        }
    }
}
