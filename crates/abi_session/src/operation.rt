// An operation of the flash, as words (specification, 10.5).
ghost use Rattle.std.specs.Prelude.{◌≡◌, ◌*◌, ◌%◌};
ghost use Rattle.octets.specs.Read.{u32_at};
ghost use Rattle.flash.specs.Operation.{bytes_of};
ghost use Rattle.abi_session.specs.Answers.{operation_words};

use abi::number::low;
use flash::{Operation, Word};

#[tactic(auto, using(octets::proofs::Numbers::u32_from_bytes))]
fn word_number(w: Word) -> u32
    ensures { result ≡ u32_at (bytes_of w) 0 }
{
    u32::from_le_bytes(w.into())
}

// The low 32 bits of the offset of a page.
fn page_offset(page: usize) -> u32
    ensures { result ≡ page % 1048576 * 4096 }
{
    (page % 1048576) as u32 * 4096
}

fn operation_words(operation: Operation) -> [u32; 3]
    ensures { result ≡ operation_words operation }
{
    match operation {
        Operation::Nothing => [0, 0, 0],
        Operation::ErasePage(page) => [1, page_offset(page), 0],
        Operation::StoreWord(at, w) => [2, low(at), word_number(w)],
    }
}

// The operation goes to its three words.
pub fn tell_operation(operation: Operation, told: &mut [u32; 3])
    ensures { told.new ≡ operation_words operation }
{
    let words = operation_words(operation);
    *told = words;
}
