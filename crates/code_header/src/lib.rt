// The 1,024-byte header in front of code: where each field stands, what the steps of a check ask of it
// and of the bytes behind it, and who signed it.
//
// All of it is over the offset at which the header starts, so that every family of images that has
// such a header asks the same tests: the firmware header stands at v, behind a vendor header, and that
// of a loader at 0. A byte past the end reads as 0. No function has a `requires`, and nothing is written.
#![tactic(auto)]

pub mod layout;
pub mod tests;
pub mod theorems;

// The header that starts at an offset of the bytes.
#[derive(Clone, Copy)]
pub struct CodeHeader<'a> {
    pub bytes: &'a [u8],
    pub at: u32,
}
