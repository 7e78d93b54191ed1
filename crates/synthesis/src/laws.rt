// What is shown of the definitions alone: nothing runs.
ghost use Rattle.std.specs.Prelude.{◌≡◌, ℕ, List, ℤ, length};
ghost use Rattle.synthesis.specs.Agree.{Agree};

/// The clamped steps and the whole numbers say the same.
pub fn agreement()
    ensures { (m : ℕ) (a xs h : List ℤ) → length h ≡ m → Agree m a xs h }
{}
