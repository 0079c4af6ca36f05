// What the checks of a loader are given, from words; and the choice between the two areas, as words.
ghost use Rattle.std.specs.Prelude.{◌≡◌};
ghost use Rattle.header.specs.Outcome.{number_of};
ghost use Rattle.loader.specs.Choice.{area_of};
ghost use Rattle.abi.specs.Loaders.{area_inputs_of, choice_words, loader_words};

use crate::answer::answer_words;
use loader::AreaInputs;
use loader::choice::{Area, Choice, loader};

// The time, the key policy and the verdicts. A verdict is yes where its word is 1.
#[tactic(auto, unfolding(crate::specs::Loaders::area_inputs_of))]
pub fn area_inputs_of(w: [u32; 5]) -> AreaInputs
    ensures { result ≡ area_inputs_of w }
{
    AreaInputs {
        time: w[0],
        m: w[1],
        n: w[2],
        card: w[3] == 1,
        internal: w[4] == 1,
    }
}

// 1 for the card, 2 for the internal area, 0 for none.
fn area_of(choice: Choice) -> usize
    ensures { result ≡ area_of choice }
{
    match choice {
        Ok(Area::Card) => 1,
        Ok(Area::Internal) => 2,
        Err(_) => 0,
    }
}

// Where the loader to run stands: the area, and start and length in it.
#[tactic(auto, unfolding(crate::specs::Loaders::loader_words))]
pub fn loader_words<'a>(choice: Choice, card: &'a [u8], internal: &'a [u8]) -> [usize; 3]
    ensures { result ≡ loader_words choice card.now internal.now }
{
    let found = loader(choice, card, internal);
    [area_of(choice), 0, found.len()]
}

// The choice's number comes back, and the whole answer goes to told.
pub fn tell_choice(choice: Choice, told: &mut [u32; 3]) -> u32
    ensures value { result ≡ number_of choice }
    ensures told_after { told.new ≡ choice_words choice }
{
    let words = answer_words(&choice);
    *told = words;
    words[0]
}
