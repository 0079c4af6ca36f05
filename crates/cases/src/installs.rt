// Rows of whole installs: begin, every erase, pieces of one length or of all, and close, with refused
// calls between all others where a row asks for them. Then what the slot holds, and what the boot check
// says of it.
use case_images::calls::{Call, print_numbers, print_reply};
use case_images::checks::inputs;
use case_rows::rows::{Row, Word};
use case_rows::show;
use octets::{part, rest};
use sessions::{Reply, Session, Turn};
use std::io;

// The call whose turn it is.
fn due(s: Session) -> Call {
    if s.pages < s.slot / 4096 {
        Call::Erase
    } else if s.taken < s.file {
        Call::Fill
    } else {
        Call::Close
    }
}

// Whether a call is refused with 19 and changes nothing, on a slot that is so many bytes shorter. The
// call whose turn it is would not be, and is not tried.
fn is_refused(call: Call, shorter: usize, row: Row, s: Session, slot: &mut [u8]) -> bool {
    if shorter == 0 && s.phase == 1 && call == due(s) {
        return false;
    }
    let len = slot.len().saturating_sub(shorter);
    let attempt = call.attempt(row, s, b"piece", &mut slot[..len]);
    attempt.kept && matches!(attempt.turn.reply, Reply::Refused(19))
}

// The calls that are tried between two others: each on the whole slot, and on one that is a word shorter.
const TRIES: [(Call, usize); 6] = [
    (Call::Erase, 0),
    (Call::Erase, 4),
    (Call::Fill, 0),
    (Call::Fill, 4),
    (Call::Close, 0),
    (Call::Close, 4),
];

// What stands between the calls of an install.
#[derive(Clone, Copy)]
pub enum Between {
    Nothing,
    Refused,
}

impl Between {
    // Makes the calls that stand there, and tells how many of them are refused.
    fn refused(self, row: Row, s: Session, slot: &mut [u8]) -> usize {
        match self {
            Between::Nothing => 0,
            Between::Refused => TRIES
                .iter()
                .filter(|(call, shorter)| is_refused(*call, *shorter, row, s, slot))
                .count(),
        }
    }
}

// A piece has so many bytes as the row says, or, for 0, from 0 to 8 in turn.
fn length(by: usize, calls: usize) -> usize {
    if by == 0 { calls % 9 } else { by }
}

// The next call, with so many of the next bytes.
fn step(row: Row, length: usize, s: Session, file: &[u8], slot: &mut [u8]) -> Turn {
    due(s).make(row, s, part(rest(file, s.taken), 0, length), slot)
}

// All calls up to the end of the session, at most three for each byte of the file, and what the install
// came to.
fn run(
    rt: &impl Print,
    between: Between,
    row: Row,
    file: &[u8],
    slot: &mut [u8],
) -> io::Result<()> {
    let by = row.size(Word::By, 4);
    let mut turn = installer::begin(slot, file.len());
    let mut refused: usize = 0;
    for calls in 0..file.len().saturating_mul(3) {
        let session = turn.session;
        refused = refused.wrapping_add(between.refused(row, session, slot));
        if session.phase != 1 {
            print_numbers(rt, session)?;
            print!(rt; " calls {calls} between {refused}")?;
            return print_reply(rt, turn.reply);
        }
        turn = step(row, length(by, calls), session, file, slot);
    }
    Ok(())
}

// A row of an install, in a slot that held zeros: the lengths of the slot, if there are so many bytes,
// of the file and of its pieces.
pub fn install(
    rt: &impl Print,
    between: Between,
    row: Row,
    image: &[u8],
    b: &mut [u8],
) -> io::Result<()> {
    let Some(slot) = b.get_mut(..row.size(Word::Slot, 8192)) else {
        return Ok(());
    };
    let file = part(image, 0, row.size(Word::File, 1540));
    slot.fill(0);
    run(rt, between, row, file, slot)?;
    show::digest(rt, "slot", slot)?;
    show::answer(rt, image::check_slot(slot, inputs(row)))
}
