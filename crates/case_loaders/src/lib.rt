// Rows of `cases` that are about loaders: the check on a card and in the internal area, the digest to
// be signed, and the choice between the two areas.
#![tactic(auto)]

use case_rows::rows::{Row, Word};
use case_rows::{build, show};
use loader::AreaInputs;
use loader::choice::Area;
use octets::part;
use std::io;

// Time 100, a policy of 2 of 3 and both verdicts yes, unless the row says otherwise. The check of a loader
// has a type of its own for what it is given.
fn inputs(row: Row) -> AreaInputs {
    let [m, n] = row.numbers(Word::Policy).unwrap_or([2, 3]);
    let [card, internal] = row.numbers(Word::Verdicts).unwrap_or([1, 1]);
    AreaInputs {
        time: row.number(Word::Time).unwrap_or(100),
        m,
        n,
        card: card == 1,
        internal: internal == 1,
    }
}

// How many bytes of code the loader of a row has: 4 unless the row says otherwise.
fn code_len(row: Row) -> u32 {
    row.number(Word::Code).unwrap_or(4)
}

// How many bytes a row lends: 64 behind its loader unless it says otherwise.
fn lent(row: Row) -> usize {
    row.size(Word::Lent, 1088 + code_len(row) as usize)
}

// The bytes that a row of one area lends: its loader, and x behind it.
fn area<'a>(row: Row, x: u8, b: &'a mut [u8]) -> &'a [u8] {
    let lent = lent(row);
    build::area(row, code_len(row), lent, x, b);
    build::edit(row, build::Family::behind(0), b);
    part(b, 0, lent)
}

// A row of the check on a card, where zeros follow the loader.
pub fn card(rt: &impl Print, row: Row, b: &mut [u8]) -> io::Result<()> {
    let bytes = area(row, 0, b);
    let answer = loader::check_card(bytes, inputs(row));
    show::checked(rt, answer, loader::code(bytes, answer))
}

// A row of the check in the internal area, where erased bytes follow the loader.
pub fn internal(rt: &impl Print, row: Row, b: &mut [u8]) -> io::Result<()> {
    let bytes = area(row, 255, b);
    let answer = loader::check_internal(bytes, inputs(row));
    show::checked(rt, answer, loader::code(bytes, answer))
}

// A row of the digest to be signed.
pub fn question(rt: &impl Print, row: Row, b: &mut [u8]) -> io::Result<()> {
    show::question(rt, loader::loader_digest(area(row, 255, b)))
}

// A row of both areas: which loader runs, and the loader. The code of the internal loader has 4 bytes
// more. Of what the row changes the second byte is in the internal area, and all else on the card.
pub fn choose(rt: &impl Print, row: Row, card: &mut [u8], internal: &mut [u8]) -> io::Result<()> {
    let lent = lent(row);
    build::area(row, code_len(row), lent, 0, card);
    build::edit_one(row, build::Family::behind(0), card);
    let longer = code_len(row).wrapping_add(4);
    let all = 1088 + longer as usize;
    build::area(row, longer, all, 255, internal);
    build::edit_byte(row, Word::And, internal);
    let card = part(card, 0, lent);
    let internal = part(internal, 0, all);
    let choice = loader::choice::choose(card, internal, inputs(row));
    match choice {
        Ok(Area::Card) => print!(rt; " card")?,
        Ok(Area::Internal) => print!(rt; " internal")?,
        Err(r) => show::refusal(rt, r)?,
    }
    show::part(rt, "loader", loader::choice::loader(choice, card, internal))
}
