// Runs test cases of frames and records: see `test_cases`. The cases, and what they must answer, come from rust/vectors. A case's third number names the
// edition, as a C program does.
#![tactic(auto)]

use std::io;
use std::io::Write;
use test_cases::Case;

// The edition that a case names.
fn edition(case: Case) -> u32 {
    (case.c % 0x100000000) as u32
}

// Answers the reader, told the tuner that the case's second number names.
fn frame_read<W: Write>(
    case: Case,
    frame: &[u8],
    lent: &mut [u64],
    to: &mut W,
) -> io::Result<bool> {
    let tuner = (case.b % 0x100000000) as u32;
    test_cases::hex(
        abi_frame::frame_read(edition(case), tuner, frame, lent) as u64,
        to,
    )?;
    test_cases::end_values(lent, to)
}

fn read<W: Write>(case: Case, frame: &[u8], bytes: &[u8], to: &mut W) -> io::Result<bool> {
    let mut lent = test_values::no_values();
    let n = test_values::values(bytes, &mut lent);
    frame_read(case, frame, &mut lent[0..n], to)
}

// The status of an operation on a record.
fn status_of(case: Case, fields: &[u64], lent: &mut [u8]) -> u64 {
    let operation = case.operation;
    match operation {
        1 => abi_frame::warned(fields, case.a) as u64,
        _ => abi_frame::frame_write(edition(case), fields, lent) as u64,
    }
}

// Answers it.
fn answer<W: Write>(case: Case, input: &[u8], lent: &mut [u8], to: &mut W) -> io::Result<bool> {
    let mut fields = test_values::no_values();
    let n = test_values::values(input, &mut fields);
    test_cases::hex(status_of(case, &fields[0..n], lent), to)?;
    test_cases::end_bytes(lent, to)
}

fn run<W: Write>(case: Case, input: &[u8], lent: &mut [u8], to: &mut W) -> io::Result<bool> {
    if case.operation == 0 {
        return read(case, input, lent, to);
    }
    if case.operation < 3 {
        return answer(case, input, lent, to);
    }
    test_cases::wrong(to)
}

fn main(rt: HostRuntime) -> io::Result<()> {
    let mut input = rt.stdin();
    let mut output = rt.stdout();
    test_cases::run(&mut input, &mut output, run)
}
