// The vendor trust reading: what the signer shows and asks before it runs the vendor's firmware.
ghost use Rattle.std.specs.Prelude.{◌≡◌, cond};
ghost use Rattle.header.specs.Trust.{trust_of};

// The seconds to wait; whether the background is red, a click is needed, the vendor's string is
// shown, and the pairing secret is allowed.
#[derive(Clone, Copy)]
pub struct Trust {
    pub seconds: u32,
    pub red: bool,
    pub click: bool,
    pub string: bool,
    pub secret: bool,
}

fn seconds(active: bool, n: u32) -> u32
    ensures { result ≡ cond active n 0 }
{
    if active { n } else { 0 }
}

// The reading of a vtrust field.
pub fn trust_of(x: u32) -> Trust
    ensures { result ≡ trust_of x }
{
    let one = seconds(x / 1 % 2 == 0, 1);
    let two = seconds(x / 2 % 2 == 0, 2);
    let four = seconds(x / 4 % 2 == 0, 4);
    let eight = seconds(x / 8 % 2 == 0, 8);
    Trust {
        seconds: one + two + four + eight,
        red: x / 16 % 2 == 0,
        click: x / 32 % 2 == 0,
        string: x / 64 % 2 == 0,
        secret: x / 128 % 2 == 0,
    }
}
