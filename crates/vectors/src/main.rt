// Writes digests in hexadecimal, one labelled line each. The file `stdout` was compared with Python's
// hashlib.
//
// BLAKE2s: "abc" (RFC 7693, appendix B), the empty string, and the inputs of the self-test of appendix
// E. The appendix also takes keys and shorter digests. This library has neither, so the last line is
// the digest of the six digests of 32 bytes without a key.
//
// SHA-256: NIST's examples for FIPS 180-4, of one block, of two blocks, and the additional ones; the
// empty string, and one million letters a. NIST's last three examples are left out: they have
// 536,870,912 bytes and more.
#![tactic(auto)]

ghost use Rattle.std.specs.Prelude.{◌≤◌};

use blake2s::blake2s;
use sha256::sha256;
use std::{fmt, io};

// A digest, which is printed in hexadecimal.
#[derive(Drop)]
struct Hex([u8; 32]);

impl fmt::Display for Hex {
    fn fmt<W: fmt::Write>(&self, f: &mut fmt::Formatter<W>) -> fmt::Result {
        for byte in &self.0 {
            write!(f, "{byte:02x}")?;
        }
        Ok(())
    }
}

// A line for each message: its label and its digest.
fn print_digests<H: Fn(&[u8]) -> [u8; 32]>(
    rt: &impl Print,
    hash: H,
    messages: &[(&str, &[u8])],
) -> io::Result<()>
    requires { H.IsAlwaysCallable hash }
{
    for (label, message) in messages {
        println!(rt; "{label} {}", Hex(hash(message)))?;
    }
    Ok(())
}

// The appendix's sequence of a length: the highest byte of each sum of the two numbers before it, from
// a prime times the length, modulo 2^32, and 1.
fn sequence<const N: usize>(length: u32) -> [u8; N] {
    let mut bytes = [0; N];
    let mut a = length.wrapping_mul(0xDEAD4BAD);
    let mut b: u32 = 1;
    for byte in &mut bytes {
        let sum = a.wrapping_add(b);
        (a, b) = (b, sum);
        let [highest, ..] = sum.to_be_bytes();
        *byte = highest;
    }
    bytes
}

// The lines of the self-test, the last one of all the digests in a row.
fn self_test(rt: &impl Print) -> io::Result<()> {
    let digests = [
        (0, blake2s(&sequence::<0>(0))),
        (3, blake2s(&sequence::<3>(3))),
        (64, blake2s(&sequence::<64>(64))),
        (65, blake2s(&sequence::<65>(65))),
        (255, blake2s(&sequence::<255>(255))),
        (1024, blake2s(&sequence::<1024>(1024))),
    ];
    let mut row = [0; 192];
    for (place, (length, digest)) in row.chunks_exact_mut(32).zip(&digests) {
        println!(rt; "sequence {length} {}", Hex(*digest))?;
        place.copy_from_slice(digest);
    }
    println!(rt; "sequences {}", Hex(blake2s(&row)))
}

// The line of a message that is one byte over and over.
fn repeated_byte<const N: usize>(rt: &impl Print, byte: u8) -> io::Result<()>
    requires { N ≤ 1000000 }
{
    println!(rt; "sha256 {N} of {byte} {}", Hex(sha256(&[byte; N])))
}

fn main(rt: HostRuntime) -> io::Result<()> {
    print_digests(&rt, blake2s, &[("abc", b"abc"), ("empty", b"")])?;
    self_test(&rt)?;
    print_digests(
        &rt,
        sha256,
        &[
            ("sha256 abc", b"abc"),
            (
                "sha256 abcd..",
                b"abcdbcdecdefdefgefghfghighijhijkijkljklmklmnlmnomnopnopq",
            ),
            ("sha256 empty", b""),
            ("sha256 bd", b"\xBD"),
            ("sha256 c98c8e55", b"\xC9\x8C\x8E\x55"),
        ],
    )?;
    repeated_byte::<55>(&rt, 0)?;
    repeated_byte::<56>(&rt, 0)?;
    repeated_byte::<57>(&rt, 0)?;
    repeated_byte::<64>(&rt, 0)?;
    repeated_byte::<1000>(&rt, 0)?;
    repeated_byte::<1000>(&rt, 0x41)?;
    repeated_byte::<1005>(&rt, 0x55)?;
    repeated_byte::<1000000>(&rt, 0)?;
    repeated_byte::<1000000>(&rt, b'a')
}
