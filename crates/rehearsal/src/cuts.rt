// Power cuts inside an erase. Each word of the page is then as it was or erased (specification, 9). The
// flash chooses; here all old, all erased and two mixtures are tried on every page: word 0 is among the
// even words, and stays zero where the odd ones are erased.
use crate::images::{FILE_LEN, PAGE_LEN, SLOT_LEN};
use crate::table::{Run, next_start};
use installer::{begin, erase};
use sessions::Session;
use std::io;

// Which words of a page a cut leaves erased: those at even places, at odd ones, both or neither.
#[derive(Clone, Copy)]
enum Torn {
    Neither,
    Both,
    Even,
    Odd,
}

impl Torn {
    fn erases(self, word: usize) -> bool {
        match self {
            Torn::Neither => false,
            Torn::Both => true,
            Torn::Even => word % 2 == 0,
            Torn::Odd => word % 2 == 1,
        }
    }

    fn name(self) -> &'static str {
        match self {
            Torn::Neither => "no word,",
            Torn::Both => "every word,",
            Torn::Even => "even words,",
            Torn::Odd => "odd words,",
        }
    }
}

// A page as a cut leaves it.
fn tear(torn: Torn, page: &mut [u8]) {
    for (i, word) in page.chunks_exact_mut(4).enumerate() {
        if torn.erases(i) {
            word.fill(255);
        }
    }
}

// A session over the old image, up to the erase of page 0: zero stands in word 0.
fn opened(old: &[u8; SLOT_LEN], slot: &mut [u8; SLOT_LEN]) -> Session {
    *slot = *old;
    let begun = begin(slot, FILE_LEN);
    erase(begun.session, slot).session
}

// The power fails inside the erase of each page, and what the next start does is told; then the page is
// erased, and the next one is due.
fn cut_pages(
    rt: &impl Print,
    torn: Torn,
    old: &[u8; SLOT_LEN],
    slot: &mut [u8; SLOT_LEN],
) -> io::Result<()> {
    let mut session = opened(old, slot);
    let mut run = Run::new(torn.name());
    for page in 0..SLOT_LEN / PAGE_LEN {
        tear(torn, &mut slot[page * PAGE_LEN..(page + 1) * PAGE_LEN]);
        run = run.followed(rt, page + 2, next_start(slot))?;
        session = erase(session, slot).session;
    }
    run.print(rt)
}

// Every way, on every page. The last cut is inside the erase of page 0, and its slot is what is left.
pub fn cut_each_way(
    rt: &impl Print,
    old: &[u8; SLOT_LEN],
    slot: &mut [u8; SLOT_LEN],
) -> io::Result<()> {
    for torn in [Torn::Neither, Torn::Both, Torn::Even, Torn::Odd] {
        cut_pages(rt, torn, old, slot)?;
    }
    opened(old, slot);
    tear(Torn::Odd, &mut slot[..PAGE_LEN]);
    Ok(())
}
