// The two headers of an image: where each field stands, what each step of the check asks of them,
// and the vendor's trust.
//
// A step is a total test of the bytes: a field past the end reads as 0. So the check, the digest
// questions and any later report ask the same tests, each in its own order. Every function here is
// proved, no public function has a `requires`, and nothing is written.
#![tactic(auto)]

pub mod layout;
pub mod steps;
pub mod table;
pub mod theorems;
pub mod trust;

// What a check is given besides the bytes: the time, the key policy m of n for the vendor header,
// and the signature chip's word on each header.
#[derive(Clone, Copy, PartialEq, Eq, Debug)]
pub struct Inputs {
    pub time: u32,
    pub m: u32,
    pub n: u32,
    pub vendor: bool,
    pub firmware: bool,
}

// A refusal: its number, its part (1 vendor header, 2 firmware header, 3 code, 0 otherwise), and
// the chunk whose hash is wrong, or 0. Number and part are the specification's own, and no enums, which
// would be narrower types: `image::accepted_part` and `abi::answer::tell` take a refusal of any number.
#[derive(Clone, Copy, PartialEq, Eq, Debug)]
pub struct Refusal {
    pub number: u32,
    pub part: u32,
    pub chunk: u32,
}

// What a list of steps answers: the first failing step's refusal. Each call that users make promises what
// its answer tells as well as the answer, in a clause `told` (specification, 14).
pub type Outcome = Result<(), Refusal>;
