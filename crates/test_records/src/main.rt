// Runs test cases of the records that two captures and the desk give: see `test_cases`. The cases, and what they must answer, come from rust/vectors. A
// case's third number names the edition, as a C program does.
#![tactic(auto)]

use abi_record::VALUES;
use capture_reader::CaptureReading;
use desk_record::{DeskRecord, DeskWarning};
use frame::{Edition, Record};
use place::Place;
use std::io;
use std::io::Write;
use test_cases::Case;

// A record's values go into the lent numbers, if there are as many.
fn tell(contents: Record, lent: &mut [u64]) {
    if lent.len() == VALUES {
        abi_record::put_record(contents, lent);
    }
}

// ---- the captures stand one after the other, the main one of so many bytes

// The status is 65536 times the bits that differed, or main's number and 256 times spare's.
fn capture_read(edition: Edition, main: &[u8], spare: &[u8], n: usize, lent: &mut [u64]) -> u64 {
    match capture_reader::read(edition, main, spare, n) {
        CaptureReading::Accepted(contents, differing) => {
            tell(contents, lent);
            65536 * (differing as u64)
        }
        CaptureReading::Refused(first, second) => first as u64 + 256 * (second as u64),
    }
}

fn captures(case: Case, edition: Edition, input: &[u8], lent: &mut [u64]) -> u64 {
    let cut = numbers::smaller(case.a as usize, input.len());
    capture_read(
        edition,
        &input[0..cut],
        &input[cut..],
        case.b as usize,
        lent,
    )
}

// ---- the desk: identification, update, time, total, item, number, time of occurrence; then the place's three doubles, by their bits

fn make(edition: Edition, v: &[u64], lent: &mut [u64]) -> u64 {
    if v.len() != 10 {
        return 1;
    }
    let warning = DeskWarning {
        identification: v[0],
        update: v[1],
        time: v[2],
        total: v[3],
        item: v[4],
        number: v[5],
        occurred: v[6],
    };
    let place = Place {
        latitude: test_values::double(v[7]),
        longitude: test_values::double(v[8]),
        depth: test_values::double(v[9]),
    };
    match desk_record::make(edition, warning, place) {
        DeskRecord::Made(contents) => {
            tell(contents, lent);
            0
        }
        DeskRecord::Refused(number) => number as u64,
    }
}

fn desk(edition: Edition, input: &[u8], lent: &mut [u64]) -> u64 {
    let mut v = test_values::no_values();
    let n = test_values::values(input, &mut v);
    make(edition, &v[0..n], lent)
}

// ---- the operations

fn status_of(case: Case, input: &[u8], lent: &mut [u64]) -> u64 {
    let edition = abi_edition::edition_of((case.c % 0x100000000) as u32);
    if case.operation == 0 {
        return captures(case, edition, input, lent);
    }
    desk(edition, input, lent)
}

// Answers an operation, which lends numbers.
fn lending<W: Write>(case: Case, input: &[u8], lent: &mut [u64], to: &mut W) -> io::Result<bool> {
    test_cases::hex(status_of(case, input, lent), to)?;
    test_cases::end_values(lent, to)
}

fn run<W: Write>(case: Case, input: &[u8], bytes: &[u8], to: &mut W) -> io::Result<bool> {
    if 1 < case.operation {
        return test_cases::wrong(to);
    }
    let mut lent = test_values::no_values();
    let n = test_values::values(bytes, &mut lent);
    lending(case, input, &mut lent[0..n], to)
}

fn main(rt: HostRuntime) -> io::Result<()> {
    let mut input = rt.stdin();
    let mut output = rt.stdout();
    test_cases::run(&mut input, &mut output, |case, input, lent, to| {
        run(case, input, lent, to)
    })
}
