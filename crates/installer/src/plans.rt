// The calls over a slot that is only read (specification, 10.5). Each hands back the operation of the
// flash in place of making it, for a board whose flash is written by a driver. The calls that write
// the slot themselves stand on these.
ghost use Rattle.std.specs.Prelude.{◌≡◌, ◌+◌, ◌≤◌, ◌<◌, length};
ghost use Rattle.std.proofs.Math.Seq.{paste};
ghost use Rattle.sessions.specs.Reply.{told};
ghost use Rattle.sessions.specs.Calls.{refused, erase_plan, takes, fill_plan, close_plan, confirm_of};

use crate::record::{full_file, sound, waiting};
use flash::{Operation, Word, starts_erased};
use header::Inputs;
use image::check_file_word_apart;
use octets::{bytes_at, starts_with};
use sessions::{Plan, Reply, Session, Turn};

// A refused call: the record as it was, and no operation.
fn refused(session: Session, number: u32) -> Plan
    ensures { result ≡ refused session number }
{
    Plan {
        session,
        reply: Reply::Refused(number),
        operation: Operation::Nothing,
    }
}

// Zero is to be stored in word 0, whatever stands there; after that the next page is to be erased.
#[tactic(auto, using(crate::proofs::Numbers::sound_bounds))]
pub fn plan_erase(s: Session, slot: &[u8]) -> Plan
    ensures value { result ≡ erase_plan s slot.now }
    ensures told { told result.reply ≡ told (erase_plan s slot.now).reply }
{
    let n = slot.len();
    if s.pages >= n / 4096 || !sound(s, n) {
        return refused(s, 19);
    }
    let counted = Session {
        operations: s.operations + 1,
        ..s
    };
    if s.operations == 0 {
        return Plan {
            session: counted,
            reply: Reply::Erased,
            operation: Operation::StoreWord(0, Word::from([0; 4])),
        };
    }
    Plan {
        session: Session {
            pages: s.pages + 1,
            ..counted
        },
        reply: Reply::Erased,
        operation: Operation::ErasePage(s.pages),
    }
}

// How many bytes of a piece of len bytes a fill takes.
fn takes(taken: usize, file: usize, len: usize) -> usize
    requires { taken ≤ file }
    ensures { result ≡ takes taken file len }
{
    (4 - taken % 4).min(len).min(file - taken)
}

// The word with the piece's first k bytes in it from got on. A whole word is read at once.
#[tactic(auto, using(crate::proofs::Parts::whole_word))]
fn join(mut held: [u8; 4], got: usize, piece: &[u8], k: usize) -> [u8; 4]
    requires { (got + k ≤ 4) × (k ≤ length piece.now) }
    ensures { result ≡ paste held got piece.now k }
{
    if k == 4 {
        return bytes_at(piece, 0);
    }
    held[got..got + k].copy_from_slice(&piece[..k]);
    held
}

// Takes bytes of the piece, up to the end of the current word, and says how many. A completed word is
// to be stored at its place, except word 0, which the record keeps. 23 if that place is not erased.
#[tactic(auto, using(crate::proofs::Numbers::sound_bounds, crate::proofs::Parts::part_whole))]
pub fn plan_fill(s: Session, piece: &[u8], slot: &[u8]) -> Plan
    ensures value { result ≡ fill_plan s piece.now slot.now }
    ensures told { told result.reply ≡ told (fill_plan s piece.now slot.now).reply }
{
    let n = slot.len();
    if s.pages != n / 4096 || !sound(s, n) {
        return refused(s, 19);
    }
    let got = s.taken % 4;
    let k = takes(s.taken, s.file, piece.len());
    let held = join(s.held, got, piece, k);
    let session = Session {
        taken: s.taken + k,
        held,
        ..s
    };
    let reply = Reply::Took(k);
    if got + k != 4 {
        return Plan {
            session,
            reply,
            operation: Operation::Nothing,
        };
    }
    if s.taken < 4 {
        return Plan {
            session: Session {
                first: held,
                ..session
            },
            reply,
            operation: Operation::Nothing,
        };
    }
    let at = s.taken / 4 * 4;
    if !starts_erased(&slot[at..]) {
        return refused(s, 23);
    }
    Plan {
        session: Session {
            operations: s.operations + 1,
            ..session
        },
        reply,
        operation: Operation::StoreWord(at, Word::from(held)),
    }
}

// Checks the file, its first word from the record. If the check accepts, word 0 is to be stored, and
// `confirm` answers Done once it stands there. A refusal of the check is the answer, and the session
// is over. 19 before the last byte, then 23 if the first word is not erased.
#[tactic(auto, using(crate::proofs::Numbers::full_bounds))]
pub fn plan_close(s: Session, given: Inputs, slot: &[u8]) -> Plan
    ensures value { result ≡ close_plan s given slot.now }
    ensures told { told result.reply ≡ told (close_plan s given slot.now).reply }
{
    let Some(file) = full_file(s, slot) else {
        return refused(s, 19); // before the last byte
    };
    if !starts_erased(slot) {
        return refused(s, 23);
    }
    let answer = check_file_word_apart(s.first, file, given);
    let Ok(_) = answer else {
        return Plan {
            session: Session { phase: 0, ..s },
            reply: Reply::Rejected(answer.unwrap_err()),
            operation: Operation::Nothing,
        };
    };
    Plan {
        session: Session {
            phase: 2,
            operations: s.operations + 1,
            ..s
        },
        reply: Reply::Accepted,
        operation: Operation::StoreWord(0, Word::from(s.first)),
    }
}

// Answers Done if word 0 stands in the slot after a close that accepted, and 27 if it does not.
pub fn confirm(s: Session, slot: &[u8]) -> Turn
    ensures value { result ≡ confirm_of s slot.now }
    ensures told { told result.reply ≡ told (confirm_of s slot.now).reply }
{
    if !waiting(s, slot.len()) {
        return Turn {
            session: s,
            reply: Reply::Refused(19),
        };
    }
    if !starts_with(slot, &s.first) {
        return Turn {
            session: s,
            reply: Reply::Refused(27),
        };
    }
    Turn {
        session: Session { phase: 0, ..s },
        reply: Reply::Done,
    }
}
