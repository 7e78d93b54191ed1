// A kind of sheet, as a call is lent it and as its checks have accepted it.
ghost use Rattle.std.specs.Prelude.{◌≡◌};
ghost use Rattle.kinds.specs.Kind.{kind_of};
ghost use Rattle.kinds.specs.Checked.{lent_kind};

use super::{ERASED_SHEET, INDEX_SHEET, SHEET};
use gain::Tables;

/// A kind of sheet, with the tables of logarithm and power where it needs them.
#[derive(Clone, Copy)]
pub enum SheetKind<'a> {
    Frame,
    Index(&'a [i16], &'a [i16]),
    Erased,
}

/// The same, its tables accepted.
#[derive(Clone, Copy)]
pub enum CheckedKind<'a> {
    Frame,
    Index(Tables<'a>),
    Erased,
}

impl SheetKind<'_> {
    // How many numbers its sheet has.
    pub fn count(self) -> usize
        ensures { result ≡ (kind_of (lent_kind self.entry)).count }
    {
        match self {
            SheetKind::Frame => SHEET,
            SheetKind::Index(_, _) => INDEX_SHEET,
            SheetKind::Erased => ERASED_SHEET,
        }
    }
}
