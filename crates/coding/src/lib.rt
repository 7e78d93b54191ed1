// Numbers of 16 bits as bytes, and the body of a record: a state's numbers as bytes.
// Not public in the sense of docs/BENCH.md, "Calls": the record's calls, the exported ones and the programs call it, and meet its `requires`.
#![tactic(auto)]

ghost use Rattle.std.specs.Prelude.{◌≡◌, ◌++◌};
ghost use Rattle.state.specs.Layout.{post_of, post_numbers, state_of, numbers_of};
ghost use Rattle.coding.specs.Bytes.{words, bytes_of};
ghost use Rattle.coding.specs.Body.{missing};

mod numbers;

pub use numbers::{numbers_in, put, unsigned, word};
use postfilter::Postfilter;
use state::{CORE_NUMBERS, NUMBERS, POST_NUMBERS, SIGNAL_NUMBERS, State};

pub const CORE_BYTES: usize = 2 * CORE_NUMBERS;

pub const POST_BYTES: usize = 2 * POST_NUMBERS;

/// Core and postfilter: the body of a version 1 record.
pub const SIGNAL_BYTES: usize = 2 * SIGNAL_NUMBERS;

pub const BODY_BYTES: usize = 2 * NUMBERS;

// What a version 1 body has not, from field 197 on: last lag 40, the opening lag, and zeros.
const MISSING: [i16; NUMBERS - SIGNAL_NUMBERS] = [40, 0, 0, 0, 0, 0, 0, 0, 0, 0, 0, 0, 0, 0, 0, 0];

/// The postfilter's memory of its bytes.
pub fn post_in(bytes: &[u8; POST_BYTES]) -> Postfilter
    ensures { result ≡ post_of (words bytes.now) }
{
    state::post_of(&numbers_in(bytes))
}

/// The bytes of the postfilter's memory.
pub fn write_post(post: Postfilter, out: &mut [u8; POST_BYTES])
    ensures { out.new ≡ bytes_of (post_numbers post) }
{
    put(out, &state::post_numbers(post));
}

/// The state of a body.
pub fn state_in(body: &[u8; BODY_BYTES]) -> State
    ensures { result ≡ state_of (words body.now) }
{
    state::state_of(&numbers_in(body))
}

/// The state of a version 1 body, with the fields that it has not.
pub fn first_state_in(body: &[u8; SIGNAL_BYTES]) -> State
    ensures { result ≡ state_of (words body.now ++ missing) }
{
    let signal: [i16; SIGNAL_NUMBERS] = numbers_in(body);
    state::state_of(&copy::joined(&signal, &MISSING))
}

/// The body of a state.
pub fn write_body(state: State, out: &mut [u8; BODY_BYTES])
    ensures { out.new ≡ bytes_of (numbers_of state) }
{
    put(out, &state::numbers_of(state));
}
