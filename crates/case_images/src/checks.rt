// Rows of the check: an image as a file or as a slot, the parts that are handed back, the digests to be
// signed, and the vendor trust reading.
use case_rows::build::lent;
use case_rows::rows::{Row, Word};
use case_rows::show;
use case_rows::show::Hex;
use header::Inputs;
use header::trust::{Trust, trust_of};
use signing::Digest;
use std::io;

// Time 100, a policy of 2 of 3 and both verdicts yes, unless the row says otherwise.
pub fn inputs(row: Row) -> Inputs {
    let [m, n] = row.numbers(Word::Policy).unwrap_or([2, 3]);
    let [vendor, firmware] = row.numbers(Word::Verdicts).unwrap_or([1, 1]);
    Inputs {
        time: row.number(Word::Time).unwrap_or(100),
        m,
        n,
        vendor: vendor == 1,
        firmware: firmware == 1,
    }
}

// The image checked as a file.
pub fn file(rt: &impl Print, row: Row, image: &[u8]) -> io::Result<()> {
    show::answer(rt, image::check_file(lent(row, 0, image), inputs(row)))
}

// The image checked as a slot, which has a page at least.
pub fn slot(rt: &impl Print, row: Row, image: &[u8]) -> io::Result<()> {
    show::answer(rt, image::check_slot(lent(row, 4096, image), inputs(row)))
}

// The parts of a slot.
pub fn parts(rt: &impl Print, row: Row, image: &[u8]) -> io::Result<()> {
    let bytes = lent(row, 0, image);
    let answer = image::check_slot(bytes, inputs(row));
    show::part(rt, "string", image::string(bytes, answer))?;
    show::part(rt, "picture", image::picture(bytes, answer))?;
    show::part(rt, "code", image::code(bytes, answer))
}

// The digest of a header to be signed, or the refusal in its place, behind a word.
pub fn print_digest(rt: &impl Print, word: &str, reply: Digest) -> io::Result<()> {
    print!(rt; " {word}")?;
    match reply {
        Ok(digest) => print!(rt; " {}", Hex(&digest)),
        Err(r) => show::refusal(rt, r),
    }
}

// The digests of both headers.
pub fn digests(rt: &impl Print, row: Row, image: &[u8]) -> io::Result<()> {
    let bytes = lent(row, 0, image);
    print_digest(rt, "vendor", signing::vendor_digest(bytes))?;
    print_digest(rt, "firmware", signing::firmware_digest(bytes))
}

// What a vtrust number says: how many seconds, and what is asked, 1 for yes.
pub fn trust(rt: &impl Print, row: Row) -> io::Result<()> {
    let Trust {
        seconds,
        red,
        click,
        string,
        secret,
    } = trust_of(row.number(Word::Trust).unwrap_or(0));
    print!(rt;
        " seconds {seconds} red {} click {}",
        u8::from(red),
        u8::from(click)
    )?;
    print!(rt; " string {} secret {}", u8::from(string), u8::from(secret))
}
