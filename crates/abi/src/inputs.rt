// What a check is given besides the bytes, from words.
ghost use Rattle.std.specs.Prelude.{◌≡◌};
ghost use Rattle.abi.specs.Inputs.{inputs_of};

use header::Inputs;

// The time, the key policy and the verdicts. A verdict is yes where its word is 1. The words of a loader's
// checks are read alike, into a type whose verdicts have other names.
#[tactic(auto, unfolding(crate::specs::Inputs::inputs_of))]
pub fn inputs_of(w: [u32; 5]) -> Inputs
    ensures { result ≡ inputs_of w }
{
    Inputs {
        time: w[0],
        m: w[1],
        n: w[2],
        vendor: w[3] == 1,
        firmware: w[4] == 1,
    }
}
