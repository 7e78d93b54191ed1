// The core of a frame.
ghost use Rattle.std.specs.Prelude.{◌≡◌, ◌++◌};
ghost use Rattle.decoder.specs.Inputs.{inputs_of};
ghost use Rattle.decoder.specs.Core.{core_result, core_output};

use super::subframe::decode_subframe;
use super::{Core, CoreOutput, Inputs};

// The samples of a frame.
fn joined(a: [i16; 40], b: [i16; 40], c: [i16; 40], d: [i16; 40]) -> [i16; 160]
    ensures { result ≡ a ++ (b ++ (c ++ d)) }
{
    *[a, b, c, d].as_flattened().as_array().unwrap()
}

/// The core of a frame: four subframes, each from the state that the one before left.
pub fn decode(core: Core, inputs: Inputs) -> CoreOutput
    ensures { result ≡ core_output (core_result core (inputs_of inputs)) }
{
    let lsp = spectral::lsf_to_lsp(inputs.lsfs);
    let rows = lpc::interpolate(core.lsp, lsp);
    let opened = Core { lsp, ..core };
    let a = decode_subframe(&opened, rows.a, inputs.a);
    let b = decode_subframe(&a.next, rows.b, inputs.b);
    let c = decode_subframe(&b.next, rows.c, inputs.c);
    let d = decode_subframe(&c.next, rows.d, inputs.d);
    CoreOutput {
        rows,
        places: [a.place, b.place, c.place, d.place],
        samples: joined(a.samples, b.samples, c.samples, d.samples),
        next: d.next,
    }
}
