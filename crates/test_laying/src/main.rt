// Runs test cases of laying a frame into a header and taking it out: see `test_cases`. The cases, and what they must answer, come from rust/vectors. A
// case's third number names the edition, as a C program does.
#![tactic(auto)]

use std::io;
use std::io::Write;
use test_cases::Case;

fn answer(operation: u8, edition: u32, input: &[u8], lent: &mut [u8]) -> u64 {
    match operation {
        0 => abi_laying::lay_in(edition, lent, input) as u64,
        _ => abi_laying::take_out(lent) as u64,
    }
}

fn run<W: Write>(case: Case, input: &[u8], lent: &mut [u8], to: &mut W) -> io::Result<bool> {
    if 1 < case.operation {
        return test_cases::wrong(to);
    }
    let edition = (case.c % 0x100000000) as u32;
    test_cases::hex(answer(case.operation, edition, input, lent), to)?;
    test_cases::end_bytes(lent, to)
}

fn main(rt: HostRuntime) -> io::Result<()> {
    let mut input = rt.stdin();
    let mut output = rt.stdout();
    test_cases::run(&mut input, &mut output, run)
}
