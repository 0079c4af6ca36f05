// What the checks of the older model are given, from words; and where the code of its images stands.
ghost use Rattle.std.specs.Prelude.{◌≡◌};
ghost use Rattle.abi.specs.Older.{verdicts_of, older_inputs_of, code_words};

use crate::places::placed;
use code_header::CodeHeader;
use image::areas::code_span_at;
use older_model::{OlderInputs, Verdicts};

// Three verdicts. Each is yes where its word is 1.
fn verdicts_of(one: u32, two: u32, three: u32) -> Verdicts
    ensures { result ≡ verdicts_of one two three }
{
    Verdicts {
        one: one == 1,
        two: two == 1,
        three: three == 1,
    }
}

// The time, the number of keys in the key sheet, and the verdicts on the legacy header and on the V2
// header.
#[tactic(auto, unfolding(crate::specs::Older::older_inputs_of))]
pub fn older_inputs_of(w: [u32; 8]) -> OlderInputs
    ensures { result ≡ older_inputs_of w }
{
    let legacy = verdicts_of(w[2], w[3], w[4]);
    let v2 = verdicts_of(w[5], w[6], w[7]);
    OlderInputs {
        time: w[0],
        keys: w[1],
        legacy,
        v2,
    }
}

// The code behind a V2 header that starts at an offset in checked bytes: start and length, or zeros
// after a refusal, which number tells.
pub fn code_words(bytes: &[u8], at: u32, number: u32) -> [usize; 2]
    ensures { result ≡ code_words at number bytes.now }
{
    if number != 0 {
        return [0; 2];
    }
    placed(bytes.len(), code_span_at(CodeHeader { bytes, at }))
}
