// The kinds of sheets: their checks, and what each comes to before the core, the inputs of its frame.
#![tactic(auto)]

ghost use Rattle.kinds.specs.Accepted.{AcceptedExactly};
ghost use Rattle.kinds.specs.Laws.{OwnGains, IndexCallGains, IndexEnergies, ErasedGains};

mod checks;
mod kind;
mod lags;
mod sheet;

use basicop::Q14;
pub use checks::check_call;
use decoder::Inputs;
use gain::GainDecoder;
use gain_concealment::GainConcealment;
pub use kind::{CheckedKind, SheetKind};
pub use lags::Lags;
pub use outcome::SAMPLES;
pub use sheet::CheckedSheet;
use state::Concealment;

/// The numbers of a frame sheet.
pub const SHEET: usize = 182;

/// The numbers of an index sheet.
pub const INDEX_SHEET: usize = 178;

/// The numbers of an erased sheet.
pub const ERASED_SHEET: usize = 171;

/// What goes from subframe to subframe before the core: the sharpening that the gains leave, the past energies, and the gains' concealment.
#[derive(Clone, Copy)]
pub struct GainMemory {
    pub sharpening: Q14,
    pub gain_decoder: GainDecoder,
    pub concealment: GainConcealment,
}

/// What a sheet comes to: the inputs of its frame, and the concealment and the past energies after it.
#[derive(Drop)]
pub struct Prepared {
    pub inputs: Inputs,
    pub concealment: Concealment,
    pub gain_decoder: GainDecoder,
}

/// What an accepted call has shown, and what is promised of its gains.
pub fn laws()
    ensures accepted { AcceptedExactly }
    ensures own_gains { OwnGains }
    ensures index_call_gains { IndexCallGains }
    ensures index_energies { IndexEnergies }
    ensures erased_gains { ErasedGains }
{}
