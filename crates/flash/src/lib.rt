// The flash: its two operations, an operation as a value, and the test that a word is erased.
//
// `erase_page` and `store_word` take the slot's bytes from the place on where they work, and touch the
// first page or word of them alone. An operation as a value is what a board's driver is handed, to make
// it on the real flash. What the power can leave of one that it cuts stands in `specs/`.
#![tactic(auto)]

pub mod theorems;

ghost use Rattle.std.specs.Prelude.{◌≡◌};
ghost use Rattle.flash.specs.Flash.{first_page_erased, first_word_stored, starts_erased};
ghost use Rattle.flash.specs.Operation.{word_of, bytes_of};

// A word: its four bytes in order. It is no array: the theorem InterruptedOperations speaks of every
// word, and a list of bytes in a definition carries no length.
#[derive(Clone, Copy, PartialEq, Eq, Debug)]
pub struct Word {
    pub b0: u8,
    pub b1: u8,
    pub b2: u8,
    pub b3: u8,
}

// What is done to the flash: nothing, a page erased, counted from 0, or a word stored at an offset. These are
// the three kinds of the specification, 10.5, so it is no Option of two.
#[derive(Clone, Copy, PartialEq, Eq, Debug)]
pub enum Operation {
    Nothing,
    ErasePage(usize),
    StoreWord(usize, Word),
}

// Four bytes as a word.
impl From<[u8; 4]> for Word {
    ghost from_gives = { λ b w. w ≡ word_of b };

    fn from(b: [u8; 4]) -> Word {
        let [b0, b1, b2, b3] = b;
        Word { b0, b1, b2, b3 }
    }
}

// A word as four bytes.
impl From<Word> for [u8; 4] {
    ghost from_gives = { λ w b. b ≡ bytes_of w };

    fn from(w: Word) -> [u8; 4] {
        [w.b0, w.b1, w.b2, w.b3]
    }
}

// Erases one page: its 4,096 bytes become 255. Nothing happens to less than a page.
#[tactic(auto, using(crate::proofs::Laws::page_cut))]
pub fn erase_page(page: &mut [u8])
    ensures { page.new ≡ first_page_erased page.old }
{
    if page.len() < 4096 {
        return;
    }
    page[..4096].fill(255);
}

// Stores one word. The caller has seen that the word there is erased, or stores zero. Nothing happens to
// less than a word.
#[tactic(auto, using(crate::proofs::Laws::word_whole, crate::proofs::Laws::word_cut, crate::proofs::Laws::four_elements))]
pub fn store_word(at: &mut [u8], w: [u8; 4])
    ensures { at.new ≡ first_word_stored w at.old }
{
    if at.len() < 4 {
        return;
    }
    at[..4].copy_from_slice(&w);
}

// Whether the first word is erased. Less than a word is not.
pub fn starts_erased(at: &[u8]) -> bool
    ensures { result ≡ starts_erased at.now }
{
    at.starts_with(&[255; 4])
}
