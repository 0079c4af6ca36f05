// The inspecting program: checks an image from standard input as a file, at time 0, with a policy of
// 2 of 3 and yes from the signature chip for both headers, and writes one line.
//
// It reads at most 65,536 bytes, on until they are full or the input ends, and then asks for one more. The
// check is the proved library's; what is read and written is the C library's word. A read or a write that
// fails ends the program with an error.
#![tactic(auto)]

use header::{Inputs, Refusal};
use image::check_file;
use reading::read_full;
use std::io;

// The most bytes that an image has.
const MOST: usize = 65536;

// What the check is given beside the image.
const GIVEN: Inputs = Inputs {
    time: 0,
    m: 2,
    n: 3,
    vendor: true,
    firmware: true,
};

// The line of the check's answer.
fn inspect(rt: &impl Print, bytes: &[u8]) -> io::Result<()> {
    match check_file(bytes, GIVEN) {
        Ok(_) => println!(rt; "accepted"),
        Err(
            Refusal {
                number,
                part,
                chunk,
            },
        ) => println!(rt; "refused {number} part {part} chunk {chunk}"),
    }
}

fn main(rt: HostRuntime) -> io::Result<()> {
    let mut input = rt.stdin();
    let mut buffer = [0; MOST];
    let n = read_full(&mut input, &mut buffer)?;
    let mut further = [0; 1];
    if read_full(&mut input, &mut further)? > 0 {
        return println!(rt; "too large");
    }
    inspect(&rt, &buffer[..n])
}
