// How a session crosses the C boundary: its record, its answers and its operations, as words.
//
// The exported calls, in the crate `thimmorel`, are made of these, of `abi` and of the library's own
// calls.
#![tactic(auto)]

pub mod asked;
pub mod operation;
pub mod record;
pub mod reply;
pub mod theorems;
