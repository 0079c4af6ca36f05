// What the program writes: words, each with its numbers behind it, and a space before each of them.
use header::Refusal;
use image::{Answer, Version};
use std::{fmt, io};

// Bytes in their order, two digits each.
#[derive(Clone, Copy)]
pub struct Hex<'a>(pub &'a [u8]);

impl fmt::Display for Hex<'_> {
    fn fmt<W: fmt::Write>(&self, f: &mut fmt::Formatter<W>) -> fmt::Result {
        for byte in self.0 {
            write!(f, "{byte:02x}")?;
        }
        Ok(())
    }
}

// A version, with dots between its numbers.
#[derive(Clone, Copy)]
struct Dotted(Version);

impl fmt::Display for Dotted {
    fn fmt<W: fmt::Write>(&self, f: &mut fmt::Formatter<W>) -> fmt::Result {
        let Version {
            major,
            minor,
            patch,
            build,
        } = self.0;
        write!(f, "{major}.{minor}.{patch}.{build}")
    }
}

// The digest of bytes, behind a word.
pub fn digest(rt: &impl Print, word: &str, bytes: &[u8]) -> io::Result<()> {
    print!(rt; " {word} {}", Hex(&blake2s::blake2s(bytes)))
}

// How many bytes a part has, and their digest.
pub fn part(rt: &impl Print, word: &str, bytes: &[u8]) -> io::Result<()> {
    print!(rt; " {word} {}", bytes.len())?;
    digest(rt, "byte", bytes)
}

// A refusal: its number, its part and its chunk.
pub fn refusal(rt: &impl Print, refusal: Refusal) -> io::Result<()> {
    let Refusal {
        number,
        part,
        chunk,
    } = refusal;
    print!(rt; " refused {number} part {part} chunk {chunk}")
}

// The digest to be signed, or the refusal in its place.
pub fn question(rt: &impl Print, digest: Result<[u8; 32], Refusal>) -> io::Result<()> {
    match digest {
        Ok(digest) => print!(rt; " byte {}", Hex(&digest)),
        Err(r) => refusal(rt, r),
    }
}

// What a check answers.
pub fn answer(rt: &impl Print, answer: Answer) -> io::Result<()> {
    match answer {
        Ok(i) => {
            print!(rt; " accepted v {} code {}", i.v, i.codelen)?;
            print!(rt; " version {} fix {}", Dotted(i.version), Dotted(i.fix))
        }
        Err(r) => refusal(rt, r),
    }
}

// What a check answers, and the code that is handed back.
pub fn checked(rt: &impl Print, checked: Answer, code: &[u8]) -> io::Result<()> {
    answer(rt, checked)?;
    part(rt, "code", code)
}
