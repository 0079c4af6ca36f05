// Rows of `cases` that are about the older model: the checks of a V2 image and of the pair, as a file and
// in a slot, and the digests to be signed.
#![tactic(auto)]

mod images;

use case_rows::rows::{Row, Word};
use case_rows::show;
use images::lent;
use older_model::digest::{pair_legacy_digest, v2_digest};
use older_model::forms::Form;
pub use older_model::forms::{Alone, Pair};
use older_model::{OlderInputs, Verdicts};
use std::io;

// How many erased bytes follow the image in a slot.
const ERASED: u32 = 64;

// Yes, unless the row says otherwise.
fn verdicts(row: Row, word: Word) -> Verdicts {
    let [one, two, three] = row.numbers(word).unwrap_or([1, 1, 1]);
    Verdicts {
        one: one == 1,
        two: two == 1,
        three: three == 1,
    }
}

// Time 100, a sheet of 5 keys and all verdicts yes, unless the row says otherwise.
fn inputs(row: Row) -> OlderInputs {
    OlderInputs {
        time: row.number(Word::Time).unwrap_or(100),
        keys: row.number(Word::Sheet).unwrap_or(5),
        legacy: verdicts(row, Word::Legacy),
        v2: verdicts(row, Word::V2),
    }
}

// An image of the form, checked as a file.
pub fn file<F: Form>(rt: &impl Print, row: Row, b: &mut [u8]) -> io::Result<()> {
    let bytes = lent(row, F::AT, 0, b);
    let answer = older_model::check_file::<F>(bytes, inputs(row));
    show::checked(rt, answer, older_model::code::<F>(bytes, answer))
}

// The same checked as a slot.
pub fn slot<F: Form>(rt: &impl Print, row: Row, b: &mut [u8]) -> io::Result<()> {
    let bytes = lent(row, F::AT, ERASED, b);
    let answer = older_model::check_slot::<F>(bytes, inputs(row));
    show::checked(rt, answer, older_model::code::<F>(bytes, answer))
}

// The digest to be signed of the V2 header, or the refusal in its place.
pub fn question<F: Form>(rt: &impl Print, row: Row, b: &mut [u8]) -> io::Result<()> {
    show::question(rt, v2_digest::<F>(lent(row, F::AT, 0, b)))
}

// The digest to be signed of the legacy header in the pair.
pub fn legacy_question(rt: &impl Print, row: Row, b: &mut [u8]) -> io::Result<()> {
    show::question(rt, pair_legacy_digest(lent(row, Pair::AT, 0, b)))
}
