// The installer: begin, erase, fill, ask and close, over the one slot of flash.
//
// A session's record goes in by value and comes back. Any record may come in: one that no session
// reaches is refused with 19. Each call makes at most one operation of the flash. The first erase
// stores zero in word 0, and the file's first word stays in the record until it is stored as the last
// operation of all: in between the slot starts with zero or erased, also where the power cuts an
// erase, and the boot check refuses it.
//
// The calls here write a slot in memory. Those of `plans` read the slot and hand the operation back.
#![tactic(auto)]

pub mod plans;
pub mod record;

ghost use Rattle.std.specs.Prelude.{◌≡◌, length};
ghost use Rattle.flash.specs.Operation.{performed};
ghost use Rattle.header.specs.Outcome as outcome;
ghost use Rattle.sessions.specs.Record.{over, new_record};
ghost use Rattle.sessions.specs.Reply.{told};
ghost use Rattle.sessions.specs.Calls.{turn, begin_of, erase_of, erase_slot, fill_of, fill_slot, ask_of, signatures_of, turn_of, slot_of, close_of, close_slot};

use flash::{Operation, Word, erase_page, store_word};
use header::{Inputs, Refusal};
use plans::{plan_close, plan_erase, plan_fill};
use record::{file_len_right, full_file, new_record, slot_len_right};
use sessions::{Asked, Plan, Reply, Session, Signatures, Turn};
use signing::places::{firmware_signature_word_apart, no_signature, vendor_signature_word_apart};
use signing::{firmware_digest_word_apart, vendor_digest_word_apart};

// A refused begin: a finished session with all numbers 0.
fn no_session(number: u32) -> Turn
    ensures { result ≡ turn (new_record over 0 0) (Reply.Refused number) }
{
    Turn {
        session: new_record(0, 0, 0),
        reply: Reply::Refused(number),
    }
}

// Begins a session on the slot, told the file's length. It touches no flash. 22 if the slot's length
// is wrong, then 18 if the file's is.
#[tactic(auto, unfolding(sessions::specs::Calls::begin_of))]
pub fn begin(slot: &[u8], file: usize) -> Turn
    ensures value { result ≡ begin_of (length slot.now) file }
    ensures told { told result.reply ≡ told (begin_of (length slot.now) file).reply }
{
    let n = slot.len();
    if !slot_len_right(n) {
        return no_session(22);
    }
    if !file_len_right(n, file) {
        return no_session(18);
    }
    Turn {
        session: new_record(1, n, file),
        reply: Reply::Begun,
    }
}

// Erases a page of the slot.
#[tactic(auto, using(crate::proofs::Parts::part_whole, crate::proofs::Parts::part_back, flash::proofs::Laws::page_past))]
fn erase_at(page: usize, slot: &mut [u8])
    ensures { slot.new ≡ performed (Operation.ErasePage page) slot.old }
{
    if slot.len() / 4096 < page {
        return;
    }
    let at = page * 4096;
    erase_page(&mut slot[at..]);
}

// Stores a word at its place in the slot.
#[tactic(auto, using(crate::proofs::Parts::part_whole, crate::proofs::Parts::part_back, flash::proofs::Laws::word_past))]
fn store_at(at: usize, w: Word, slot: &mut [u8])
    ensures { slot.new ≡ performed (Operation.StoreWord at w) slot.old }
{
    if slot.len() < at {
        return;
    }
    store_word(&mut slot[at..], w.into());
}

// Makes an operation on a slot in memory.
pub fn perform(operation: Operation, slot: &mut [u8])
    ensures { slot.new ≡ performed operation slot.old }
{
    match operation {
        Operation::Nothing => {}
        Operation::ErasePage(page) => erase_at(page, slot),
        Operation::StoreWord(at, w) => store_at(at, w, slot),
    }
}

// Makes a plan's operation, and says what is left of the plan then: word 0 stands, so that Accepted is
// Done.
fn settled(p: Plan, slot: &mut [u8]) -> Turn
    ensures { (result ≡ turn_of p) × (slot.new ≡ slot_of p slot.old) }
{
    perform(p.operation, slot);
    match p.reply {
        Reply::Accepted => Turn {
            session: Session {
                phase: 0,
                ..p.session
            },
            reply: Reply::Done,
        },
        reply => Turn {
            session: p.session,
            reply,
        },
    }
}

// Stores zero in word 0 the first time, and erases the next page from then on.
pub fn erase(s: Session, slot: &mut [u8]) -> Turn
    ensures value { (result ≡ erase_of s slot.old) × (slot.new ≡ erase_slot s slot.old) }
    ensures told { told result.reply ≡ told (erase_of s slot.old).reply }
{
    settled(plan_erase(s, slot), slot)
}

// Takes bytes of the piece, up to the end of the current word, and says how many. A completed word is
// stored at its place, except word 0, which the record keeps. 23 if that place is not erased.
pub fn fill(s: Session, piece: &[u8], slot: &mut [u8]) -> Turn
    ensures value { (result ≡ fill_of s piece.now slot.old) × (slot.new ≡ fill_slot s piece.now slot.old) }
    ensures told { told result.reply ≡ told (fill_of s piece.now slot.old).reply }
{
    settled(plan_fill(s, piece, slot), slot)
}

// Both digest questions over the full file, its first word from the record. 19 to both unless all
// bytes are taken.
pub fn ask(s: Session, slot: &[u8]) -> Asked
    ensures value { result ≡ ask_of s slot.now }
    ensures vendor { outcome.told result.vendor ≡ outcome.told (ask_of s slot.now).vendor }
    ensures firmware { outcome.told result.firmware ≡ outcome.told (ask_of s slot.now).firmware }
{
    let Some(file) = full_file(s, slot) else {
        let refused = Err(Refusal {
            number: 19,
            part: 0,
            chunk: 0,
        });
        return Asked {
            vendor: refused,
            firmware: refused,
        };
    };
    Asked {
        vendor: vendor_digest_word_apart(s.first, file),
        firmware: firmware_digest_word_apart(s.first, file),
    }
}

// What the chip needs beside these digests, as places in the slot. There are none unless all bytes are
// taken.
pub fn signatures(s: Session, slot: &[u8]) -> Signatures
    ensures { result ≡ signatures_of s slot.now }
{
    let Some(file) = full_file(s, slot) else {
        return Signatures {
            vendor: no_signature(),
            firmware: no_signature(),
        };
    };
    Signatures {
        vendor: vendor_signature_word_apart(s.first, file),
        firmware: firmware_signature_word_apart(s.first, file),
    }
}

// Checks the file, its first word from the record, and stores that word if the check accepts: Done.
// A refusal of the check is the answer, and the slot stays. Either way the session is over. 19
// before the last byte, then 23 if the first word is not erased.
pub fn close(s: Session, given: Inputs, slot: &mut [u8]) -> Turn
    ensures value { (result ≡ close_of s given slot.old) × (slot.new ≡ close_slot s given slot.old) }
    ensures told { told result.reply ≡ told (close_of s given slot.old).reply }
{
    settled(plan_close(s, given, slot), slot)
}
