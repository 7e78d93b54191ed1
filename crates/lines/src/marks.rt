//! Peak and mark of a frame.
ghost use Rattle.std.specs.Prelude.{◌≡◌, max, nat_abs};
ghost use Rattle.lines.specs.Lines.{peak_of, mark_of};
ghost use Rattle.lines.specs.Peaks.{PeakSides, MarkSides};

// The larger of a distance and a sample's distance from zero.
fn farther(most: u16, x: i16) -> u16
    ensures { result ≡ max most (nat_abs x) }
{
    most.max(x.unsigned_abs())
}

/// The largest distance from zero among the samples: that of -32768 is 32768.
pub fn peak(samples: [i16; 160]) -> u16
    ensures { result ≡ peak_of samples }
{
    samples.iter().fold(0, |most, x| farther(most, *x))
}

/// L if the peak is 32760 or more; otherwise R if any flag; otherwise -.
pub fn mark(peak: u16, flags: [bool; 4]) -> u8
    ensures { result ≡ mark_of peak flags }
{
    let loud = peak >= 32760;
    let retried = flags.contains(&true);
    if loud {
        b'L'
    } else if retried {
        b'R'
    } else {
        b'-'
    }
}

/// What peak and mark are beside the highest sample, by which frames were once marked.
pub fn laws()
    ensures peak { PeakSides }
    ensures mark { MarkSides }
{}
