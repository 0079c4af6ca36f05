// What the signer does at its next start, and the table that tells it: a line for each run of calls
// after which it is the same. Every number printed is counted or answered; of text are only the
// lengths of slot and file, which their types fix, and the version that is put back.
use header::Inputs;
use image::{Answer, Version, check_file, check_slot};
use sessions::Session;
use std::{fmt, io};

// The inputs of every check: time 0, a policy of 2 of 3, yes from the chip to both headers.
pub const GIVEN: Inputs = Inputs {
    time: 0,
    m: 2,
    n: 3,
    vendor: true,
    firmware: true,
};

// A version, of which the build is not told.
#[derive(Clone, Copy, PartialEq, Eq)]
pub struct Release {
    major: u8,
    minor: u8,
    patch: u8,
}

impl From<Version> for Release {
    fn from(version: Version) -> Release {
        Release {
            major: version.major,
            minor: version.minor,
            patch: version.patch,
        }
    }
}

impl fmt::Display for Release {
    fn fmt<W: fmt::Write>(&self, f: &mut fmt::Formatter<W>) -> fmt::Result {
        let Release {
            major,
            minor,
            patch,
        } = self;
        write!(f, "{major}.{minor}.{patch}")
    }
}

// The number of a refusal. 1 says that the bytes do not begin as an image does.
#[derive(Clone, Copy, PartialEq, Eq)]
pub struct Number(u32);

impl fmt::Display for Number {
    fn fmt<W: fmt::Write>(&self, f: &mut fmt::Formatter<W>) -> fmt::Result {
        match self.0 {
            1 => write!(f, "1: no image"),
            number => write!(f, "{number}"),
        }
    }
}

// What the signer does with bytes: the version that it starts, or the number with which it refuses.
pub type Start = Result<Release, Number>;

fn start_of(answer: Answer) -> Start {
    match answer {
        Ok(image) => Ok(Release::from(image.version)),
        Err(refusal) => Err(Number(refusal.number)),
    }
}

// What the signer would do if the power failed now: the boot check of the slot.
pub fn next_start(slot: &[u8]) -> Start {
    start_of(check_slot(slot, GIVEN))
}

// What bytes hold, in the words of the lines above the table.
#[derive(Drop)]
struct Held(Start);

impl fmt::Display for Held {
    fn fmt<W: fmt::Write>(&self, f: &mut fmt::Formatter<W>) -> fmt::Result {
        match self.0 {
            Ok(release) => write!(f, "holds version {release}"),
            Err(number) => write!(f, "is refused with {number}"),
        }
    }
}

// The lines above the table, and its heads.
pub fn print_heading(rt: &impl Print, slot: &[u8], file: &[u8]) -> io::Result<()> {
    println!(rt; "A slot of 65,536 bytes {}.", Held(next_start(slot)))?;
    println!(rt;
        "A file of 1,540 bytes {} and is installed over it.\n",
        Held(start_of(check_file(file, GIVEN)))
    )?;
    print_heads(rt, "if the power fails after")
}

// The heads of the table's two columns.
pub fn print_heads(rt: &impl Print, first: &str) -> io::Result<()> {
    println!(rt; "{first:<34}the next start")
}

// The second column of a line.
fn print_start(rt: &impl Print, start: Start) -> io::Result<()> {
    match start {
        Ok(release) => println!(rt; "starts {release}"),
        Err(number) => println!(rt; "refuses with {number}"),
    }
}

// A line of the table.
pub fn print_row(rt: &impl Print, name: &str, start: Start) -> io::Result<()> {
    print!(rt; "{name:<34}")?;
    print_start(rt, start)
}

// How many digits a number has.
fn digits(n: usize) -> usize {
    match n.checked_ilog10() {
        None => 1,
        Some(exponent) => exponent as usize + 1,
    }
}

// The calls of one name, by their numbers, after which the next start is the same.
#[derive(Clone, Copy)]
pub struct Run<'a> {
    name: &'a str,
    first: usize,
    last: usize,
    start: Option<Start>,
}

impl<'a> Run<'a> {
    // No call yet.
    pub fn new(name: &'a str) -> Run<'a> {
        Run {
            name,
            first: 0,
            last: 0,
            start: None,
        }
    }

    // The run with one call more, or a new run, where the line of the one before is printed.
    pub fn followed(self, rt: &impl Print, call: usize, start: Start) -> io::Result<Run<'a>> {
        if self.start == Some(start) {
            return Ok(Run { last: call, ..self });
        }
        self.print(rt)?;
        Ok(Run {
            name: self.name,
            first: call,
            last: call,
            start: Some(start),
        })
    }

    // Its line, if there is a call.
    pub fn print(self, rt: &impl Print) -> io::Result<()> {
        let Run {
            name,
            first,
            last,
            start,
        } = self;
        match start {
            None => Ok(()),
            Some(start) => {
                let taken = name.len().saturating_add(digits(first)).saturating_add(5);
                let width = 34_usize.saturating_sub(taken);
                print!(rt; "{name} {first} to {last:<width$}")?;
                print_start(rt, start)
            }
        }
    }
}

// The line below the table, from the record: every operation that erases no page stores a word.
pub fn print_done(rt: &impl Print, session: Session) -> io::Result<()> {
    let Session {
        operations,
        pages,
        ..
    } = session;
    let words = operations.saturating_sub(pages);
    println!(rt;
        "\nDone after {operations} operations of the flash: {pages} pages erased, {words} words stored."
    )
}
