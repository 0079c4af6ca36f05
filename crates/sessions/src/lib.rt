// A session of the installer: the types of its record and of its answers. What each call gives, and
// what any list of calls leaves in the slot, stands in `specs/`; the theorems say what is shown of it.
//
// No code stands here but the types. The calls are those of `installer`, each promised to give what
// is defined here.
#![tactic(auto)]

pub mod theorems;

use flash::Operation;
use header::Refusal;
use signing::Digest;
use signing::places::Signature;

// A session's record: its phase, the lengths of the slot and of the file as told at begin, pages
// erased, bytes taken, operations made since begin, the file's first word, and the word in progress.
// The phase is 0 if the session is over, 1 if it is open, and 2 if a close has accepted the file and
// word 0 is to be confirmed. Any other number is no phase. It is a number, and no enum, which would be a
// narrower type: any record may come in, and `installer::record::sound` has one of no phase refused with 19.
#[derive(Clone, Copy, PartialEq, Eq, Debug)]
pub struct Session {
    pub phase: u32,
    pub slot: usize,
    pub file: usize,
    pub pages: usize,
    pub taken: usize,
    pub operations: usize,
    pub first: [u8; 4],
    pub held: [u8; 4],
}

// What a call answers. Accepted is a close over a slot that is only read: the file is accepted, and
// word 0 is to be stored. Refused is the installer's own refusal, by its number, and Rejected is one
// of the check, which a close passes on. It is no Result: a refused call gives a record as well, and
// the specification says of each of the seven cases which.
#[derive(Clone, Copy, PartialEq, Eq, Debug)]
pub enum Reply {
    Begun,
    Erased,
    Took(usize),
    Accepted,
    Done,
    Refused(u32),
    Rejected(Refusal),
}

// The record and the answer that a call gives.
#[derive(Clone, Copy, PartialEq, Eq, Debug)]
pub struct Turn {
    pub session: Session,
    pub reply: Reply,
}

// The record and the answer that a call gives, and the operation that the caller is to make.
#[derive(Clone, Copy, PartialEq, Eq, Debug)]
pub struct Plan {
    pub session: Session,
    pub reply: Reply,
    pub operation: Operation,
}

// What ask answers: both digest questions over the full file.
#[derive(Clone, Copy, PartialEq, Eq, Debug)]
pub struct Asked {
    pub vendor: Digest,
    pub firmware: Digest,
}

// What the chip needs for the signatures of the full file, as places in the slot.
#[derive(Clone, Copy, PartialEq, Eq, Debug)]
pub struct Signatures {
    pub vendor: Signature,
    pub firmware: Signature,
}
