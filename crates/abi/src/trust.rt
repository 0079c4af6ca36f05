// The trust reading of a vendor header, as words.
ghost use Rattle.std.specs.Prelude.{◌≡◌};
ghost use Rattle.abi.specs.Answers.{trust_words};

use header::trust::Trust;

// The seconds, and 1 for each feature that is active.
pub fn trust_words(t: Trust) -> [u32; 5]
    ensures { result ≡ trust_words t }
{
    [
        t.seconds,
        u32::from(t.red),
        u32::from(t.click),
        u32::from(t.string),
        u32::from(t.secret),
    ]
}
