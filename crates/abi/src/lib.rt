// How numbers, answers and places cross the C boundary: as words.
//
// What is read here comes from a C caller, and what is told goes to one. The exported calls, in the
// crate `thimmorel`, are made of these, of `abi_session` and of the library's own calls.
#![tactic(auto)]

pub mod answer;
pub mod digest;
pub mod headers;
pub mod inputs;
pub mod loaders;
pub mod number;
pub mod older;
pub mod places;
pub mod theorems;
pub mod trust;
