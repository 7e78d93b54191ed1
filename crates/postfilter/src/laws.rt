// What is shown of the definitions alone: nothing runs.
ghost use Rattle.std.specs.Prelude.{◌≡◌, ℕ, List, ℤ, pos};
ghost use Rattle.lists.specs.Lists.{at};
ghost use Rattle.lpc.specs.declared.Rows.{Rows as RowsDefined};
ghost use Rattle.postfilter.specs.declared.Postfilter.{Postfilter as Memory};
ghost use Rattle.postfilter.specs.Postfilter.{row_at, postfilter_result};
ghost use Rattle.postfilter.specs.Tilted.{Tilted, Framed};

/// The tilt of every row, and what it divides by.
pub fn tilt_range()
    ensures { (a : List ℤ) → Tilted a }
{}

/// The tilts of every frame, and what its subframes divide by.
pub fn frame_tilts()
    ensures any { (m : Memory) (rows : RowsDefined) (ys : List ℤ) → Framed 1 4 (postfilter_result m rows ys) }

    // of rows that begin with 4096, as every frame's do
    ensures rows { (m : Memory) (rows : RowsDefined) (ys : List ℤ) → ((k : ℕ) → at (row_at rows k) 0 ≡ pos 4096) → Framed 512 4 (postfilter_result m rows ys) }
{}
