// A session's record in sixteen words (specification, 10.2).
ghost use Rattle.std.specs.Prelude.{◌≡◌};
ghost use Rattle.abi_session.specs.Record.{session_of, words_over};

use abi::number::low;
use octets::u32_at;
use sessions::Session;

// The record that words hold.
#[tactic(auto, unfolding(crate::specs::Record::session_of))]
pub fn session_of(w: [u32; 16]) -> Session
    ensures { result ≡ session_of w }
{
    Session {
        phase: w[0],
        slot: w[1] as usize,
        file: w[2] as usize,
        pages: w[3] as usize,
        taken: w[4] as usize,
        operations: w[5] as usize,
        first: w[6].to_le_bytes(),
        held: w[7].to_le_bytes(),
    }
}

// A record as words, over what the words were before: the last eight are kept for later, and stay.
#[tactic(auto, unfolding(crate::specs::Record::words_over))]
pub fn words_over(old: [u32; 16], s: Session) -> [u32; 16]
    ensures { result ≡ words_over old s }
{
    [
        s.phase,
        low(s.slot),
        low(s.file),
        low(s.pages),
        low(s.taken),
        low(s.operations),
        u32_at(&s.first, 0),
        u32_at(&s.held, 0),
        old[8],
        old[9],
        old[10],
        old[11],
        old[12],
        old[13],
        old[14],
        old[15],
    ]
}
