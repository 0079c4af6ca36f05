// Fill on a record in words, for both forms of the call: it plans, and tells all but the operation.
//
// Both forms stand on this one function, and not on `installer::fill` and `plan_fill`: a session that
// crosses a call in memory costs as much again as the fill itself.
ghost use Rattle.std.specs.Prelude.{◌≡◌};
ghost use Rattle.sessions.specs.Calls.{fill_plan};
ghost use Rattle.sessions.specs.Reply.{number_of};
ghost use Rattle.abi_session.specs.Record.{session_of, words_after_plan};
ghost use Rattle.abi_session.specs.Answers.{taken_word};

use abi_session::record::session_of;
use abi_session::reply::{tell_record, tell_taken};
use flash::Operation;
use installer::plans::plan_fill;

// The number that the call returns, and the operation that is to be made.
#[derive(Clone, Copy)]
pub struct Filled {
    pub number: u32,
    pub operation: Operation,
}

pub fn fill_words(record: &mut [u32; 16], piece: &[u8], slot: &[u8], taken: &mut [u32; 1]) -> Filled
    ensures number_value { result.number ≡ number_of (fill_plan (session_of «record».old) piece.now slot.now).reply }
    ensures operation_value { result.operation ≡ (fill_plan (session_of «record».old) piece.now slot.now).operation }
    ensures record_after { «record».new ≡ words_after_plan (fill_plan (session_of «record».old) piece.now slot.now) «record».old }
    ensures taken_after { taken.new ≡ taken_word (fill_plan (session_of «record».old) piece.now slot.now).reply taken.old }
{
    let plan = plan_fill(session_of(*record), piece, slot);
    tell_taken(plan.reply, taken);
    let number = tell_record(plan.session, plan.reply, record);
    Filled {
        number,
        operation: plan.operation,
    }
}
