// Rows of text. A row is a line of items, words and numbers, with one space between them. Its first
// word says what is done; each further word is followed by its numbers, and stands in for usual
// numbers where it is left out. A word that starts with a capital letter is a label, and says which
// step of the specification the row is about. Answers are written in the same words.
ghost use Rattle.std.specs.Prelude.{◌<◌, ◌^◌};

use std::array;

// What a row does.
#[derive(Clone, Copy)]
pub enum Kind {
    File,
    Slot,
    Parts,
    Digests,
    Trust,
    RoundTrip,
    Vendor,
    Firmware,
    Begin,
    Record,
    Install,
    Crossed,
    Card,
    Internal,
    Question,
    Choose,
    V2File,
    V2Slot,
    V2Question,
    PairFile,
    PairSlot,
    PairQuestion,
    LegacyQuestion,
}

impl Kind {
    // What the first word of a row says, if it is one of these.
    fn from_text(text: &[u8]) -> Option<Kind> {
        match text {
            b"file" => Some(Kind::File),
            b"slot" => Some(Kind::Slot),
            b"parts" => Some(Kind::Parts),
            b"digests" => Some(Kind::Digests),
            b"trust" => Some(Kind::Trust),
            b"roundtrip" => Some(Kind::RoundTrip),
            b"vendor" => Some(Kind::Vendor),
            b"firmware" => Some(Kind::Firmware),
            b"begin" => Some(Kind::Begin),
            b"record" => Some(Kind::Record),
            b"install" => Some(Kind::Install),
            b"crossed" => Some(Kind::Crossed),
            b"card" => Some(Kind::Card),
            b"internal" => Some(Kind::Internal),
            b"question" => Some(Kind::Question),
            b"choose" => Some(Kind::Choose),
            b"v2file" => Some(Kind::V2File),
            b"v2slot" => Some(Kind::V2Slot),
            b"v2question" => Some(Kind::V2Question),
            b"pairfile" => Some(Kind::PairFile),
            b"pairslot" => Some(Kind::PairSlot),
            b"pairquestion" => Some(Kind::PairQuestion),
            b"legacyquestion" => Some(Kind::LegacyQuestion),
            _ => None,
        }
    }
}

// A word that has numbers behind it.
#[derive(Clone, Copy)]
pub enum Word {
    And,
    By,
    Byte,
    Code,
    Dirty,
    File,
    Hashed,
    KeyBytes,
    Keys,
    Legacy,
    Lent,
    M,
    Nothing,
    Operations,
    Pages,
    Phase,
    Picture,
    Piece,
    Policy,
    Room,
    Sheet,
    Slot,
    String,
    Taken,
    Time,
    Trust,
    V,
    V2,
    Verdicts,
    Word,
}

impl Word {
    // The word as it stands in a row.
    fn text(self) -> &'static str {
        match self {
            Word::And => "and",
            Word::By => "by",
            Word::Byte => "byte",
            Word::Code => "code",
            Word::Dirty => "dirty",
            Word::File => "file",
            Word::Hashed => "hashed",
            Word::KeyBytes => "keybytes",
            Word::Keys => "keys",
            Word::Legacy => "legacy",
            Word::Lent => "lent",
            Word::M => "m",
            Word::Nothing => "nothing",
            Word::Operations => "operations",
            Word::Pages => "pages",
            Word::Phase => "phase",
            Word::Picture => "picture",
            Word::Piece => "piece",
            Word::Policy => "policy",
            Word::Room => "room",
            Word::Sheet => "sheet",
            Word::Slot => "slot",
            Word::String => "string",
            Word::Taken => "taken",
            Word::Time => "time",
            Word::Trust => "trust",
            Word::V => "v",
            Word::V2 => "v2",
            Word::Verdicts => "verdicts",
            Word::Word => "word",
        }
    }
}

// The number that a text of digits tells, modulo 2^32.
fn decimal(digits: &[u8]) -> u32 {
    digits.iter().fold(0u32, |number, digit| {
        number
            .wrapping_mul(10)
            .wrapping_add(u32::from(digit.saturating_sub(b'0')))
    })
}

// A row: a line of text.
#[derive(Clone, Copy)]
pub struct Row<'a> {
    pub text: &'a [u8],
}

impl Row<'_> {
    // What the row does, if its first word says so.
    pub fn kind(self) -> Option<Kind> {
        self.text
            .split(|b| *b == b' ')
            .next()
            .and_then(Kind::from_text)
    }

    // The numbers behind a word of the row, if the row has the word. A number that is not there is 0.
    pub fn numbers<const N: usize>(self, word: Word) -> Option<[u32; N]> {
        let mut items = self.text.split(|b| *b == b' ');
        items.find(|item| *item == word.text().as_bytes())?;
        Some(array::from_fn(|_| items.next().map_or(0, decimal)))
    }

    // The number behind a word of the row, if the row has the word.
    pub fn number(self, word: Word) -> Option<u32> {
        let [number] = self.numbers::<1>(word)?;
        Some(number)
    }

    // The number behind a word of the row, or another, as a length or a place. Both are modulo 2^32.
    pub fn size(self, word: Word, otherwise: usize) -> usize
        ensures { result < 2 ^ 32 }
    {
        self.number(word).unwrap_or((otherwise % (1 << 32)) as u32) as usize
    }
}
