// Runs test cases of the functions that take doubtful marks: see `test_cases`. The cases, and what they must answer, come from rust/vectors. A case's first
// slice is a frame and its marks, the frame as long as the case's first number says; the second number names the tuner and the third one the edition, as
// a C program does.
#![tactic(auto)]

use std::io;
use std::io::Write;
use test_cases::Case;

// The edition that a case names.
fn edition(case: Case) -> u32 {
    (case.c % 0x100000000) as u32
}

// The status of an operation that is lent bytes.
fn status_of(case: Case, frame: &[u8], marks: &[u8], lent: &mut [u8]) -> u64 {
    let operation = case.operation;
    match operation {
        0 => abi_repair::repair_marked(frame, marks, lent) as u64,
        1 => abi_marked_frame::frame_judge_marked(frame, marks) as u64,
        _ => abi_laying::lay_in_marked(edition(case), lent, frame, marks) as u64,
    }
}

// Answers the reader, told the tuner that the case names.
fn frame_read_marked<W: Write>(
    case: Case,
    frame: &[u8],
    marks: &[u8],
    lent: &mut [u64],
    to: &mut W,
) -> io::Result<bool> {
    let tuner = (case.b % 0x100000000) as u32;
    let status = abi_marked_frame::frame_read_marked(edition(case), tuner, frame, marks, lent);
    test_cases::hex(status as u64, to)?;
    test_cases::end_values(lent, to)
}

fn read<W: Write>(
    case: Case,
    frame: &[u8],
    marks: &[u8],
    bytes: &[u8],
    to: &mut W,
) -> io::Result<bool> {
    let mut lent = test_values::no_values();
    let n = test_values::values(bytes, &mut lent);
    frame_read_marked(case, frame, marks, &mut lent[0..n], to)
}

// Answers a case of this frame and these marks.
fn run<W: Write>(
    case: Case,
    frame: &[u8],
    marks: &[u8],
    lent: &mut [u8],
    to: &mut W,
) -> io::Result<bool> {
    if 3 < case.operation {
        return test_cases::wrong(to);
    }
    if case.operation == 3 {
        return read(case, frame, marks, lent, to);
    }
    test_cases::hex(status_of(case, frame, marks, lent), to)?;
    test_cases::end_bytes(lent, to)
}

// The frame and the marks out of one slice.
fn split<W: Write>(case: Case, input: &[u8], lent: &mut [u8], to: &mut W) -> io::Result<bool> {
    let at = case.a as usize;
    if input.len() < at {
        return test_cases::wrong(to);
    }
    run(case, &input[0..at], &input[at..], lent, to)
}

fn main(rt: HostRuntime) -> io::Result<()> {
    let mut input = rt.stdin();
    let mut output = rt.stdout();
    test_cases::run(&mut input, &mut output, split)
}
