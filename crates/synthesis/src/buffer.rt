// The next history.
ghost use Rattle.std.specs.Prelude.{◌≡◌};
ghost use Rattle.synthesis.specs.Synthesis.{newest};

/// The last ten samples.
pub fn newest(samples: [i16; 40]) -> [i16; 10]
    ensures { result ≡ newest 10 samples }
{
    *samples.last_chunk().unwrap()
}
