// Single calls of the installer: how an answer and a record are written, whether a call changes
// anything, and the record of a row.
use crate::checks::inputs;
use case_rows::rows::{Row, Word};
use case_rows::show;
use case_rows::show::Hex;
use octets::bytes_at;
use sessions::{Reply, Session, Turn};
use std::{fmt, io};

// What a call answers.
pub fn print_reply(rt: &impl Print, reply: Reply) -> io::Result<()> {
    match reply {
        Reply::Begun => print!(rt; " begun"),
        Reply::Erased => print!(rt; " erased"),
        Reply::Took(count) => print!(rt; " took {count}"),
        Reply::Accepted => print!(rt; " accepted"),
        Reply::Done => print!(rt; " Done"),
        Reply::Refused(number) => print!(rt; " refused {number}"),
        Reply::Rejected(r) => show::refusal(rt, r),
    }
}

// What a record says was done.
pub fn print_numbers(rt: &impl Print, s: Session) -> io::Result<()> {
    print!(rt;
        " pages {} taken {} operations {}",
        s.pages, s.taken, s.operations
    )
}

// All of a record.
pub fn print_session(rt: &impl Print, s: Session) -> io::Result<()> {
    print!(rt; " phase {} slot {} file {}", s.phase, s.slot, s.file)?;
    print_numbers(rt, s)?;
    print!(rt; " first {} held {}", Hex(&s.first), Hex(&s.held))
}

// The calls that may change a slot.
#[derive(Clone, Copy, PartialEq, Eq)]
pub enum Call {
    Erase,
    Fill,
    Close,
}

impl fmt::Display for Call {
    fn fmt<W: fmt::Write>(&self, f: &mut fmt::Formatter<W>) -> fmt::Result {
        f.write_str(match self {
            Call::Erase => "erase",
            Call::Fill => "fill",
            Call::Close => "close",
        })
    }
}

// A call, and whether it left the record and the slot as they were.
#[derive(Clone, Copy)]
pub struct Attempt {
    pub turn: Turn,
    pub kept: bool,
}

impl Call {
    // In the order of a session.
    pub const ALL: [Call; 3] = [Call::Erase, Call::Fill, Call::Close];

    // Makes the call on a record and a slot.
    pub fn make(self, row: Row, s: Session, piece: &[u8], slot: &mut [u8]) -> Turn {
        match self {
            Call::Erase => installer::erase(s, slot),
            Call::Fill => installer::fill(s, piece, slot),
            Call::Close => installer::close(s, inputs(row), slot),
        }
    }

    // Makes the call, and compares what it leaves with what was there.
    pub fn attempt(self, row: Row, s: Session, piece: &[u8], slot: &mut [u8]) -> Attempt {
        let before = blake2s::blake2s(slot);
        let turn = self.make(row, s, piece, slot);
        Attempt {
            turn,
            kept: blake2s::blake2s(slot) == before && s == turn.session,
        }
    }
}

// The record of a row.
pub fn session(row: Row, image: &[u8]) -> Session {
    let taken = row.size(Word::Taken, 0);
    Session {
        phase: row.number(Word::Phase).unwrap_or(1),
        slot: row.size(Word::Slot, 8192),
        file: row.size(Word::File, 1540),
        pages: row.size(Word::Pages, 2),
        taken,
        operations: row.size(Word::Operations, 3),
        first: bytes_at(image, 0),
        held: bytes_at(image, taken / 4 * 4),
    }
}
