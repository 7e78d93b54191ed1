// What the concealed gains are scaled by (Q15): an entry for each attenuation stage, 0 to 6.
ghost use Rattle.std.specs.Prelude.{◌≡◌, ◌<◌, pos};
ghost use Rattle.lists.specs.Lists.{entry};
ghost use Rattle.gain_concealment.specs.Concealment.{pdown, cdown};

// pdown
const PITCH_DOWN: [i16; 7] = [32767, 32112, 32112, 26214, 9830, 6553, 6553];

// cdown
const CODE_DOWN: [i16; 7] = [32767, 32112, 32112, 32112, 32112, 32112, 22937];

/// The pitch gain's at a stage.
#[tactic(auto, using(basicop::proofs::Calls::read_back, crate::proofs::Factors::pdown_fits))]
pub fn pitch_down(stage: usize) -> i16
    requires { stage < 7 }
    ensures { result ≡ entry pdown (pos stage) }
{
    PITCH_DOWN[stage]
}

/// The code gain's at a stage.
#[tactic(auto, using(basicop::proofs::Calls::read_back, crate::proofs::Factors::cdown_fits))]
pub fn code_down(stage: usize) -> i16
    requires { stage < 7 }
    ensures { result ≡ entry cdown (pos stage) }
{
    CODE_DOWN[stage]
}
