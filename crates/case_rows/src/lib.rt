// What the rows of `cases` are made of: rows of text, the images and loaders that they are about, built
// byte by byte, and how answers are written. It calls nothing of the library that a row is about but
// the digests.
#![tactic(auto)]

pub mod build;
pub mod rows;
pub mod show;
