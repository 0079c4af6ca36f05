// The installer over a slot in memory, for C (specification, 10.3).
//
// A call takes the session's record from the caller's sixteen words and writes it back. Any words get
// an answer, and after a refusal of the installer's own they stay as they were.
ghost use Rattle.std.specs.Prelude.{◌≡◌, cond, length};
ghost use Rattle.sessions.specs.Record.{full};
ghost use Rattle.sessions.specs.Calls.{begin_of, erase_of, erase_slot, fill_of, fill_slot, ask_of, signatures_of, close_of, close_slot};
ghost use Rattle.sessions.specs.Reply.{number_of};
ghost use Rattle.abi.specs.Inputs.{inputs_of};
ghost use Rattle.abi_session.specs.Record.{session_of, words_of, words_after_turn};
ghost use Rattle.abi_session.specs.Answers.{reply_words, taken_word, asked_words, asked_digests, signatures_words};

use crate::filling::fill_words;
use abi::inputs::inputs_of;
use abi_session::asked::{asked_words, signatures_words, tell_digests};
use abi_session::record::session_of;
use abi_session::reply::{tell_answer, tell_begun, tell_record};
use installer::record::full;
use installer::{ask, begin, close, erase, perform};

// Begins a session.
#[unsafe(no_mangle)]
pub extern "C" fn thimmorel_begin(slot: &[u8], file: usize, record: &mut [u32; 16]) -> u32
    ensures value { result ≡ number_of (begin_of (length slot.now) file).reply }
    ensures record_after { «record».new ≡ words_of (begin_of (length slot.now) file).session }
{
    let turn = begin(slot, file);
    tell_begun(turn.session, turn.reply, record)
}

// Stores zero in the first word, and then erases the next page.
#[unsafe(no_mangle)]
pub extern "C" fn thimmorel_erase(record: &mut [u32; 16], slot: &mut [u8]) -> u32
    ensures value { result ≡ number_of (erase_of (session_of «record».old) slot.old).reply }
    ensures record_after { «record».new ≡ words_after_turn (erase_of (session_of «record».old) slot.old) «record».old }
    ensures slot_after { slot.new ≡ erase_slot (session_of «record».old) slot.old }
{
    let turn = erase(session_of(*record), slot);
    tell_record(turn.session, turn.reply, record)
}

// Takes bytes of the piece, and says how many.
#[unsafe(no_mangle)]
pub extern "C" fn thimmorel_fill(
    record: &mut [u32; 16],
    piece: &[u8],
    slot: &mut [u8],
    taken: &mut [u32; 1],
) -> u32
    ensures value { result ≡ number_of (fill_of (session_of «record».old) piece.now slot.old).reply }
    ensures record_after { «record».new ≡ words_after_turn (fill_of (session_of «record».old) piece.now slot.old) «record».old }
    ensures slot_after { slot.new ≡ fill_slot (session_of «record».old) piece.now slot.old }
    ensures taken_after { taken.new ≡ taken_word (fill_of (session_of «record».old) piece.now slot.old).reply taken.old }
{
    let filled = fill_words(record, piece, slot, taken);
    perform(filled.operation, slot);
    filled.number
}

// Both digest questions over the full file.
#[unsafe(no_mangle)]
pub extern "C" fn thimmorel_ask(
    record: &[u32; 16],
    slot: &[u8],
    answers: &mut [u32; 6],
    digests: &mut [u8; 64],
) -> u32
    ensures value { result ≡ cond (full (session_of «record».now) (length slot.now)) 0 19 }
    ensures answers_after { answers.new ≡ asked_words (ask_of (session_of «record».now) slot.now) }
    ensures digests_after { digests.new ≡ cond (full (session_of «record».now) (length slot.now)) (asked_digests (ask_of (session_of «record».now) slot.now)) digests.old }
{
    let s = session_of(*record);
    if !full(s, slot.len()) {
        *answers = [19, 0, 0, 19, 0, 0]; // as `ask` answers it
        return 19;
    }
    let asked = ask(s, slot);
    *answers = asked_words(asked);
    tell_digests(asked, digests);
    0
}

// What the chip needs for the signatures of the full file.
#[unsafe(no_mangle)]
pub extern "C" fn thimmorel_find_signatures(
    record: &[u32; 16],
    slot: &[u8],
    signatures: &mut [usize; 16],
)
    ensures { signatures.new ≡ signatures_words (length slot.now) (signatures_of (session_of «record».now) slot.now) }
{
    *signatures = signatures_words(slot.len(), installer::signatures(session_of(*record), slot));
}

// Checks the file, and finishes the install if it is accepted.
#[unsafe(no_mangle)]
pub extern "C" fn thimmorel_close(
    record: &mut [u32; 16],
    slot: &mut [u8],
    inputs: &[u32; 5],
    answer: &mut [u32; 3],
) -> u32
    ensures value { result ≡ number_of (close_of (session_of «record».old) (inputs_of inputs.now) slot.old).reply }
    ensures record_after { «record».new ≡ words_after_turn (close_of (session_of «record».old) (inputs_of inputs.now) slot.old) «record».old }
    ensures slot_after { slot.new ≡ close_slot (session_of «record».old) (inputs_of inputs.now) slot.old }
    ensures answer_after { answer.new ≡ reply_words (close_of (session_of «record».old) (inputs_of inputs.now) slot.old).reply }
{
    let turn = close(session_of(*record), inputs_of(*inputs), slot);
    tell_answer(turn.reply, answer);
    tell_record(turn.session, turn.reply, record)
}
