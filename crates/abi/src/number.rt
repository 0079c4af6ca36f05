// Small conversions of one number.
ghost use Rattle.std.specs.Prelude.{◌≡◌, [], ◌∷◌, ◌%◌, min};

// The low 32 bits of a number.
pub fn low(n: usize) -> u32
    ensures { result ≡ n % 4294967296 }
{
    (n % 4294967296) as u32
}

// A count, as the one word of an output.
pub fn count(k: usize) -> [u32; 1]
    ensures { result ≡ k % 4294967296 ∷ [] }
{
    [low(k)]
}

// The low 8 bits of a word.
pub fn low8(w: u32) -> u8
    ensures { result ≡ w % 256 }
{
    (w % 256) as u8
}

// The low 16 bits of a word.
pub fn low16(w: u32) -> u16
    ensures { result ≡ w % 65536 }
{
    (w % 65536) as u16
}

// A word as a byte, 255 where it is above that.
pub fn at_most_byte(w: u32) -> u8
    ensures { result ≡ min w 255 }
{
    w.min(255) as u8
}
