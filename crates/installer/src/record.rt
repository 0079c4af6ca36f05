// The session's record, and when it is consistent with a slot (specification, 10.2). The functions are
// no methods of Session: in `sessions` no code stands beside the definitions (docs/DECISIONS.md).
ghost use Rattle.std.specs.Prelude.{◌≡◌, true, false, length, take, MatchOption};
ghost use Rattle.sessions.specs.Record.{slot_len_right, file_len_right, words_stored, sound, full, waiting, new_record};

use sessions::Session;

// Whether a slot's length is one that begin takes.
#[tactic(auto, unfolding(sessions::specs::Record::slot_len_right))]
pub fn slot_len_right(n: usize) -> bool
    ensures { result ≡ slot_len_right n }
{
    n % 4096 == 0 && 4096 <= n && n <= 2097152
}

// Whether a file's length is one that begin takes for a slot of n bytes.
#[tactic(auto, unfolding(sessions::specs::Record::file_len_right))]
pub fn file_len_right(n: usize, f: usize) -> bool
    ensures { result ≡ file_len_right n f }
{
    f % 4 == 0 && 1540 <= f && f <= n
}

// A record with nothing done.
pub fn new_record(phase: u32, n: usize, f: usize) -> Session
    ensures { result ≡ new_record phase n f }
{
    Session {
        phase,
        slot: n,
        file: f,
        pages: 0,
        taken: 0,
        operations: 0,
        first: [0; 4],
        held: [0; 4],
    }
}

// The words stored of the first t bytes: word 0 is not among them.
fn words_stored(t: usize) -> usize
    ensures { result ≡ words_stored t }
{
    (t / 4).saturating_sub(1)
}

// Whether the record is that of an open session, and consistent with a slot of n bytes.
#[tactic(auto, unfolding(sessions::specs::Record::sound))]
pub fn sound(s: Session, n: usize) -> bool
    ensures { result ≡ sound s n }
{
    s.pages <= n / 4096
        && s.phase == 1
        && s.slot == n
        && slot_len_right(n)
        && file_len_right(n, s.file)
        && (s.pages == n / 4096 || s.taken == 0)
        && s.taken <= s.file
        && (s.operations == s.pages + words_stored(s.taken) + 1
            || s.operations == 0 && s.pages == 0)
}

// Whether all pages are erased and all bytes taken.
pub fn full(s: Session, n: usize) -> bool
    ensures { result ≡ full s n }
{
    sound(s, n) && s.pages == n / 4096 && s.taken == s.file
}

// The slot's first bytes up to the file's length, if all pages are erased and all bytes taken. The first
// word among them is not the file's: the record has that.
#[tactic(auto, using(crate::proofs::Numbers::full_length))]
pub fn full_file(s: Session, slot: &[u8]) -> Option<&[u8]>
    ensures { MatchOption result (full s (length slot.now) ≡ false)
        (λ file. (full s (length slot.now) ≡ true) × (file.now ≡ take s.file slot.now)) }
{
    if full(s, slot.len()) {
        Some(&slot[..s.file])
    } else {
        None
    }
}

// Whether the record is that of an accepted session, and consistent with a slot of n bytes.
#[tactic(auto, unfolding(sessions::specs::Record::waiting))]
pub fn waiting(s: Session, n: usize) -> bool
    ensures { result ≡ waiting s n }
{
    s.phase == 2
        && s.slot == n
        && slot_len_right(n)
        && file_len_right(n, s.file)
        && s.pages == n / 4096
        && s.taken == s.file
        && s.operations == n / 4096 + s.file / 4 + 1
}
