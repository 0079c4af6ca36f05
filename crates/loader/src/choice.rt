// The choice between the two areas, and the loader that it hands back.
//
// One call answers which area holds the loader to run, or the refusal, and another takes that answer and
// both areas and returns the loader.
ghost use Rattle.std.specs.Prelude.{◌≡◌};
ghost use Rattle.loader.specs.Choice.{told, choose, loader_of, part_of};

use crate::{AreaInputs, check_card, check_internal};
use code_header::CodeHeader;
use header::Refusal;
use octets::part;

// The area that holds the loader to run.
#[derive(Clone, Copy, PartialEq, Eq, Debug)]
pub enum Area {
    Card,
    Internal,
}

// The card's loader or the internal one; or none, with the refusal of the internal area.
pub type Choice = Result<Area, Refusal>;

// Which loader runs. The internal area is checked only where the card is refused.
pub fn choose(card: &[u8], internal: &[u8], given: AreaInputs) -> Choice
    ensures value { result ≡ choose card.now internal.now given }
    ensures told { told result ≡ told (choose card.now internal.now given) }
{
    if check_card(card, given).is_ok() {
        return Ok(Area::Card);
    }
    check_internal(internal, given)?;
    Ok(Area::Internal) // the card's is refused
}

#[tactic(auto, unfolding(crate::specs::Choice::loader_of))]
fn loader_of(b: &[u8]) -> &[u8]
    ensures { result.now ≡ loader_of b.now }
{
    part(b, 0, CodeHeader { bytes: b, at: 0 }.code_end())
}

// Header and code of the loader to run, in one piece, as a part of the area that holds it. Nothing
// where there is none.
pub fn loader<'a>(choice: Choice, card: &'a [u8], internal: &'a [u8]) -> &'a [u8]
    ensures { result.now ≡ part_of choice card.now internal.now }
{
    match choice {
        Ok(Area::Card) => loader_of(card),
        Ok(Area::Internal) => loader_of(internal),
        Err(_) => &internal[..0],
    }
}
