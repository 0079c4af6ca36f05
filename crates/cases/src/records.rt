// Rows of single calls of the installer: begin, and every other call on a record, also on one that is
// inconsistent. The slot holds what the record says: the words stored so far, and erased bytes.
use case_images::calls::{Call, print_reply, print_session, session};
use case_images::checks::print_digest;
use case_rows::rows::{Row, Word};
use case_rows::{build, show};
use octets::{part, rest};
use std::io;

// The slot of a row. Where the row names bytes they are 0, so that their word is not erased.
fn prepare(row: Row, image: &[u8], slot: &mut [u8]) {
    slot.fill(255);
    build::copy(slot, 4, part(image, 4, row.size(Word::Taken, 0) / 4 * 4));
    if let Some(dirty) = row.numbers::<2>(Word::Dirty) {
        let [from, to] = dirty;
        build::fill(slot, from as usize, to as usize, 0);
    }
}

// The next bytes of the image.
fn piece<'a>(row: Row, image: &'a [u8]) -> &'a [u8] {
    let next = rest(image, row.size(Word::Taken, 0));
    part(next, 0, row.size(Word::Piece, 4))
}

// A call on the record of a row, on a line of its own: what it answers, and the record and the slot
// that it leaves.
fn change(rt: &impl Print, call: Call, row: Row, image: &[u8], slot: &mut [u8]) -> io::Result<()> {
    print!(rt; "\n  {call}")?;
    prepare(row, image, slot);
    let attempt = call.attempt(row, session(row, image), piece(row, image), slot);
    print_reply(rt, attempt.turn.reply)?;
    if attempt.kept {
        return print!(rt; " kept");
    }
    print_session(rt, attempt.turn.session)?;
    show::digest(rt, "byte", slot)
}

// Asks for the digests of the record of a row, on a line of its own.
fn ask(rt: &impl Print, row: Row, image: &[u8], slot: &mut [u8]) -> io::Result<()> {
    print!(rt; "\n  ask")?;
    prepare(row, image, slot);
    let asked = installer::ask(session(row, image), slot);
    print_digest(rt, "vendor", asked.vendor)?;
    print_digest(rt, "firmware", asked.firmware)
}

// A row of a record: every call on it, with so many bytes of slot as the row says, if there are so many.
pub fn record(rt: &impl Print, row: Row, image: &[u8], b: &mut [u8]) -> io::Result<()> {
    let Some(slot) = b.get_mut(..row.size(Word::Lent, 8192)) else {
        return Ok(());
    };
    let image = part(image, 0, 8192);
    for call in Call::ALL {
        change(rt, call, row, image, slot)?;
    }
    ask(rt, row, image, slot)
}

// A row of begin: the length of the slot that is lent, and the file's.
pub fn begin(rt: &impl Print, row: Row, b: &[u8]) -> io::Result<()> {
    let slot = part(b, 0, row.size(Word::Lent, 8192));
    let turn = installer::begin(slot, row.size(Word::File, 1540));
    print_reply(rt, turn.reply)?;
    print_session(rt, turn.session)
}
