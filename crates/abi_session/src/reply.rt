// What the installer's calls answer, as words: number, part and chunk, the count, and the record.
ghost use Rattle.std.specs.Prelude.{◌≡◌};
ghost use Rattle.sessions.specs.Reply.{number_of};
ghost use Rattle.abi_session.specs.Record.{words_of, own_refusal, words_after};
ghost use Rattle.abi_session.specs.Answers.{reply_words, taken_word};

use crate::record::words_over;
use abi::number::count;
use sessions::{Reply, Session};

fn reply_words(reply: Reply) -> [u32; 3]
    ensures { result ≡ reply_words reply }
{
    match reply {
        Reply::Begun | Reply::Erased | Reply::Took(_) | Reply::Accepted | Reply::Done => [0, 0, 0],
        Reply::Refused(number) => [number, 0, 0],
        Reply::Rejected(r) => [r.number, r.part, r.chunk],
    }
}

fn taken_word(reply: Reply, old: [u32; 1]) -> [u32; 1]
    ensures { result ≡ taken_word reply old }
{
    if let Reply::Took(k) = reply {
        return count(k);
    }
    old
}

fn own_refusal(reply: Reply) -> bool
    ensures { result ≡ own_refusal reply }
{
    matches!(reply, Reply::Refused(_))
}

// The whole answer goes to answer, and its number comes back.
pub fn tell_answer(reply: Reply, answer: &mut [u32; 3]) -> u32
    ensures value { result ≡ number_of reply }
    ensures answer_after { answer.new ≡ reply_words reply }
{
    let words = reply_words(reply);
    *answer = words;
    words[0]
}

// The count goes to taken, which a refusal leaves as it was.
pub fn tell_taken(reply: Reply, taken: &mut [u32; 1])
    ensures { taken.new ≡ taken_word reply taken.old }
{
    let word = taken_word(reply, *taken);
    *taken = word;
}

// The record goes to its words, which the installer's own refusal leaves as they were. The reply's
// number comes back.
pub fn tell_record(session: Session, reply: Reply, record: &mut [u32; 16]) -> u32
    ensures value { result ≡ number_of reply }
    ensures record_after { «record».new ≡ words_after reply session «record».old }
{
    let told = reply_words(reply);
    if own_refusal(reply) {
        return told[0];
    }
    let words = words_over(*record, session);
    *record = words;
    told[0]
}

// Of begin: all sixteen words are written, after a refusal too.
pub fn tell_begun(session: Session, reply: Reply, record: &mut [u32; 16]) -> u32
    ensures value { result ≡ number_of reply }
    ensures record_after { «record».new ≡ words_of session }
{
    let words = words_over([0; 16], session);
    *record = words;
    let told = reply_words(reply);
    told[0]
}
