// The installer over a slot that is only read, for C (specification, 10.5). Each call hands back the
// operation of the flash, which the board makes.
ghost use Rattle.std.specs.Prelude.{◌≡◌};
ghost use Rattle.sessions.specs.Calls.{erase_plan, fill_plan, close_plan, confirm_of};
ghost use Rattle.sessions.specs.Reply.{number_of};
ghost use Rattle.abi.specs.Inputs.{inputs_of};
ghost use Rattle.abi_session.specs.Record.{session_of, words_after_turn, words_after_plan};
ghost use Rattle.abi_session.specs.Answers.{reply_words, taken_word, operation_words};

use crate::filling::fill_words;
use abi::inputs::inputs_of;
use abi_session::operation::tell_operation;
use abi_session::record::session_of;
use abi_session::reply::{tell_answer, tell_record};
use installer::plans::{confirm, plan_close, plan_erase};

// Zero is to be stored in the first word, and then the next page to be erased.
#[unsafe(no_mangle)]
pub extern "C" fn thimmorel_plan_erase(
    record: &mut [u32; 16],
    slot: &[u8],
    operation: &mut [u32; 3],
) -> u32
    ensures value { result ≡ number_of (erase_plan (session_of «record».old) slot.now).reply }
    ensures record_after { «record».new ≡ words_after_plan (erase_plan (session_of «record».old) slot.now) «record».old }
    ensures operation_after { operation.new ≡ operation_words (erase_plan (session_of «record».old) slot.now).operation }
{
    let plan = plan_erase(session_of(*record), slot);
    tell_operation(plan.operation, operation);
    tell_record(plan.session, plan.reply, record)
}

// Takes bytes of the piece, and says how many; a completed word is to be stored.
#[unsafe(no_mangle)]
pub extern "C" fn thimmorel_plan_fill(
    record: &mut [u32; 16],
    piece: &[u8],
    slot: &[u8],
    taken: &mut [u32; 1],
    operation: &mut [u32; 3],
) -> u32
    ensures value { result ≡ number_of (fill_plan (session_of «record».old) piece.now slot.now).reply }
    ensures record_after { «record».new ≡ words_after_plan (fill_plan (session_of «record».old) piece.now slot.now) «record».old }
    ensures taken_after { taken.new ≡ taken_word (fill_plan (session_of «record».old) piece.now slot.now).reply taken.old }
    ensures operation_after { operation.new ≡ operation_words (fill_plan (session_of «record».old) piece.now slot.now).operation }
{
    let filled = fill_words(record, piece, slot, taken);
    tell_operation(filled.operation, operation);
    filled.number
}

// Checks the file; if it is accepted, its first word is to be stored, and then confirmed.
#[unsafe(no_mangle)]
pub extern "C" fn thimmorel_plan_close(
    record: &mut [u32; 16],
    slot: &[u8],
    inputs: &[u32; 5],
    answer: &mut [u32; 3],
    operation: &mut [u32; 3],
) -> u32
    ensures value { result ≡ number_of (close_plan (session_of «record».old) (inputs_of inputs.now) slot.now).reply }
    ensures record_after { «record».new ≡ words_after_plan (close_plan (session_of «record».old) (inputs_of inputs.now) slot.now) «record».old }
    ensures answer_after { answer.new ≡ reply_words (close_plan (session_of «record».old) (inputs_of inputs.now) slot.now).reply }
    ensures operation_after { operation.new ≡ operation_words (close_plan (session_of «record».old) (inputs_of inputs.now) slot.now).operation }
{
    let plan = plan_close(session_of(*record), inputs_of(*inputs), slot);
    tell_answer(plan.reply, answer);
    tell_operation(plan.operation, operation);
    tell_record(plan.session, plan.reply, record)
}

// Finishes the install once the file's first word stands in the slot.
#[unsafe(no_mangle)]
pub extern "C" fn thimmorel_confirm(record: &mut [u32; 16], slot: &[u8]) -> u32
    ensures value { result ≡ number_of (confirm_of (session_of «record».old) slot.now).reply }
    ensures record_after { «record».new ≡ words_after_turn (confirm_of (session_of «record».old) slot.now) «record».old }
{
    let turn = confirm(session_of(*record), slot);
    tell_record(turn.session, turn.reply, record)
}
