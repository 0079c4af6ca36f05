// A rehearsal of an install with a power cut after every call, and inside every erase. A slot holds an
// older image, a newer one is installed over it, and after each call the program asks what the signer
// would do if the power failed there and it started again: the boot check of the slot as it stands.
// Then the older image is put back, and the power fails inside the erase of each page (`cuts`).
//
// The writers, the installer and the check are the proved libraries'. That nothing but the old image,
// the refusal 1 and the new image can show is proved (`sessions`, `done_means_landed`). This
// program lets it be watched. Close answers Done only if every erase and every fill was taken, so its
// answer is the one that is looked at.
#![tactic(auto)]

mod cuts;
mod images;
mod table;

use cuts::cut_each_way;
use images::{FILE_LEN, PAGE_LEN, SLOT_LEN, image_of};
use installer::{ask, begin, close, erase, fill};
use sessions::{Reply, Session, Turn};
use std::io;
use table::{GIVEN, Run, next_start, print_done, print_heading, print_heads, print_row};

// So many calls under one name, each with the record that the one before gave.
fn repeat<C: Fn(Session, &mut [u8]) -> Turn>(
    rt: &impl Print,
    name: &str,
    count: usize,
    mut session: Session,
    slot: &mut [u8],
    call: C,
) -> io::Result<Session>
    requires { C.IsAlwaysCallable call }
{
    let mut run = Run::new(name);
    for number in 1..=count {
        session = call(session, slot).session;
        run = run.followed(rt, number, next_start(slot))?;
    }
    run.print(rt)?;
    Ok(session)
}

// Close is to answer Done.
fn close_session(rt: &impl Print, session: Session, slot: &mut [u8]) -> io::Result<()> {
    let turn = close(session, GIVEN, slot);
    let start = next_start(slot);
    if matches!(turn.reply, Reply::Done) {
        print_row(rt, "close, which answers Done", start)?;
        print_done(rt, turn.session)
    } else {
        print_row(rt, "close, which is refused", start)
    }
}

// Installs the file over what the slot holds: one erase more than it has pages, since the first stores
// zero in word 0, and a fill for each word. A fill is given all bytes that are left: it takes no more of
// them than complete a word.
fn install(rt: &impl Print, file: &[u8], slot: &mut [u8]) -> io::Result<()> {
    let begun = begin(slot, file.len());
    print_row(rt, "begin", next_start(slot))?;
    let pages = slot.len() / PAGE_LEN;
    let words = file.len() / 4;
    let erased = repeat(rt, "erase", pages + 1, begun.session, slot, erase)?;
    let filled = repeat(rt, "fill", words, erased, slot, |session, slot| {
        let rest = file.get(session.taken..).unwrap_or(&[]);
        fill(session, rest, slot)
    })?;
    ask(filled, slot);
    print_row(rt, "ask", next_start(slot))?;
    close_session(rt, filled, slot)
}

fn main(rt: HostRuntime) -> io::Result<()> {
    let new: [u8; FILE_LEN] = image_of(2);
    let old: [u8; SLOT_LEN] = image_of(1);
    let mut slot = old;
    print_heading(&rt, &slot, &new)?;
    install(&rt, &new, &mut slot)?;
    println!(rt; "\nVersion 1.0.0 is put back, and the power fails inside the erase of a page.\n")?;
    print_heads(&rt, "erased by then, in erase")?;
    cut_each_way(&rt, &old, &mut slot)?;
    println!(rt;
        "\nIt fails inside erase 2, which leaves the odd words erased. A new session follows.\n"
    )?;
    print_heads(&rt, "if the power fails after")?;
    install(&rt, &new, &mut slot)
}
