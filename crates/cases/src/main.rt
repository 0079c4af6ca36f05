// Cases of the whole library, a line each. The rows stand in the file `stdin`; the program writes each
// as it stands and the answer behind it. Blank lines and lines that start with `#` are copied. What
// each line must say is worked out by `tools/cases` from the specification alone.
#![tactic(auto)]

mod installs;
mod records;

use case_images::{checks, writers};
use case_older::{Alone, Pair};
use case_rows::build;
use case_rows::rows::{Kind, Row};
use installs::{Between, install};
use reading::read_full;
use std::io;

// The answer to a row, by what its first word says.
fn answer(rt: &impl Print, row: Row, image: &mut [u8], b: &mut [u8]) -> io::Result<()> {
    let Some(kind) = row.kind() else {
        return print!(rt; " unknown");
    };
    match kind {
        Kind::File => checks::file(rt, row, image),
        Kind::Slot => checks::slot(rt, row, image),
        Kind::Parts => checks::parts(rt, row, image),
        Kind::Digests => checks::digests(rt, row, image),
        Kind::Trust => checks::trust(rt, row),
        Kind::RoundTrip => writers::round_trip(rt, row, image, b),
        Kind::Vendor => writers::vendor(rt, row, image, b),
        Kind::Firmware => writers::firmware(rt, row, image, b),
        Kind::Begin => records::begin(rt, row, b),
        Kind::Record => records::record(rt, row, image, b),
        Kind::Install => install(rt, Between::Nothing, row, image, b),
        Kind::Crossed => install(rt, Between::Refused, row, image, b),
        Kind::Card => case_loaders::card(rt, row, b),
        Kind::Internal => case_loaders::internal(rt, row, b),
        Kind::Question => case_loaders::question(rt, row, b),
        Kind::Choose => case_loaders::choose(rt, row, image, b),
        Kind::V2File => case_older::file::<Alone>(rt, row, b),
        Kind::V2Slot => case_older::slot::<Alone>(rt, row, b),
        Kind::V2Question => case_older::question::<Alone>(rt, row, b),
        Kind::PairFile => case_older::file::<Pair>(rt, row, b),
        Kind::PairSlot => case_older::slot::<Pair>(rt, row, b),
        Kind::PairQuestion => case_older::question::<Pair>(rt, row, b),
        Kind::LegacyQuestion => case_older::legacy_question(rt, row, b),
    }
}

// Writes a line, and the answer behind it, unless it is blank or starts with `#`.
fn line(rt: &impl Print, text: &[u8], image: &mut [u8], b: &mut [u8]) -> io::Result<()> {
    rt.write_all(text)?;
    if !matches!(text.first(), None | Some(b'#')) {
        let row = Row { text };
        print!(rt; ":")?;
        build::build(row, image);
        answer(rt, row, image, b)?;
    }
    println!(rt)
}

// Writes each line of a text. What follows the last line end is a line too, unless it is empty.
fn lines(rt: &impl Print, text: &[u8], image: &mut [u8], b: &mut [u8]) -> io::Result<()> {
    for text in text.split_inclusive(|byte| *byte == b'\n') {
        line(rt, text.strip_suffix(b"\n").unwrap_or(text), image, b)?;
    }
    Ok(())
}

// The largest image has 2,097,152 bytes, and a slot of a page more is refused.
const BUFFER: usize = 2101248;

// At most 65,536 bytes of text are read, and what is behind them is not.
fn main(rt: HostRuntime) -> io::Result<()> {
    let mut text = [0u8; 65536];
    let n = read_full(&mut rt.stdin(), &mut text)?;
    let mut image = [0u8; BUFFER];
    let mut b = [0u8; BUFFER];
    lines(&rt, &text[..n], &mut image, &mut b)
}
