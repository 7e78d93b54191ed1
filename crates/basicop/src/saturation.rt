// Saturation: what every operator holds its result to.
ghost use Rattle.std.specs.Prelude.{◌≡◌};
ghost use Rattle.std.specs.Int.{w16, w32};
ghost use Rattle.basicop.specs.Ops.{clamp};

/// x held to the range of an i16
pub fn clamp16(x: i32) -> i16
    ensures { result ≡ clamp w16 x }
{
    x.clamp(i16::MIN as i32, i16::MAX as i32) as i16
}

/// x held to the range of an i32
pub fn clamp32(x: i64) -> i32
    ensures { result ≡ clamp w32 x }
{
    x.clamp(i32::MIN as i64, i32::MAX as i64) as i32
}
