// agc of TS 26.073: gain control by a smoothed gain.
ghost use Rattle.std.specs.Prelude.{◌≡◌};
ghost use Rattle.energy.specs.Gain.{smooth, controlled, agc, together};

use crate::gain::{energy_gain, scale};
use crate::{Controlled, GainControl};
use basicop::{Q12, add, mult};

// the gain of a sample, from that of the sample before it
#[tactic(auto, using(basicop::proofs::Calls::read_back))]
fn smooth(gain: Q12, goal: Q12) -> Q12
    ensures { result.0 ≡ smooth goal.0 gain.0 }
{
    Q12(add(mult(gain.0, 29491), goal.0))
}

fn smoothed(samples: [i16; 40], gain: Q12, goal: Q12) -> Controlled
    ensures { result ≡ controlled goal.0 gain.0 samples }
{
    let mut scaled = samples;
    let mut previous = gain;
    for sample in &mut scaled {
        previous = smooth(previous, goal);
        *sample = scale(*sample, previous);
    }
    Controlled {
        samples: scaled,
        control: GainControl {
            previous_gain: previous.0,
        },
    }
}

/// agc: the output, brought to the energy of the input by the smoothed gain.
pub fn control_gain(control: GainControl, input: [i16; 40], output: [i16; 40]) -> Controlled
    ensures { result ≡ (agc control.previous_gain input output).value }
{
    let Some(gain) = energy_gain(input, output) else {
        return Controlled {
            samples: output,
            control: GainControl { previous_gain: 0 },
        };
    };
    let goal = Q12(mult(gain.0, 3276));
    smoothed(output, Q12(control.previous_gain), goal)
}

/// The same with the smoothed gain lent by the caller and updated there.
pub fn process(control: &mut GainControl, input: [i16; 40], output: [i16; 40]) -> [i16; 40]
    ensures { together result control.new ≡ (agc control.old.previous_gain input output).value }
{
    let made = control_gain(*control, input, output);
    *control = made.control;
    made.samples
}
