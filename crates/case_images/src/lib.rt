// Rows of `cases` that are about images: the check, its parts and the digests to be signed, and the
// writers. Single calls of the installer stand here too, so that neither crate takes long to check.
#![tactic(auto)]

pub mod calls;
pub mod checks;
pub mod writers;
