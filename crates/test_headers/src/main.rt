// Runs test cases of the cable header: see `test_cases`. The cases, and what they must answer, come from rust/vectors.
#![tactic(auto)]

use std::io;
use std::io::Write;
use test_cases::Case;

fn seal(header: &mut [u8]) -> u64 {
    if header.len() == 188 {
        header_writer::seal(header);
    }
    0
}

// ---- a header with each bit turned over

fn zeros() -> [u8; 188] {
    [0; 188]
}

fn no_fields() -> [u64; 145] {
    [0; 145]
}

// The fields, written, are that header.
fn comes_back(fields: &[u64], header: &[u8]) -> bool {
    let mut again = zeros();
    abi_header::header_write(fields, &mut again);
    header == again.as_slice()
}

// The refusal of a header: 254 where the reader answers another number, 255 where it is accepted and does not come back.
fn refusal(header: &[u8]) -> u64 {
    let number = header_reader::refusal(header) as u64;
    let mut fields = no_fields();
    if abi_header::header_read(header, &mut fields) as u64 != number {
        return 254;
    }
    if number == 0 && !comes_back(&fields, header) {
        return 255;
    }
    number
}

// Turns bit k over and, if asked, makes the CRC again.
fn flip(header: &mut [u8], k: usize, again: u64) {
    let bit = bit_fields::get(header, k, 1);
    bit_fields::put(header, k, 1, bit ^ 1);
    if again == 1 {
        seal(header);
    }
}

// The refusals of the header with each bit below a number turned over; the bit is then turned back.
fn each_bit<W: Write>(header: &mut [u8], end: u64, again: u64, to: &mut W) -> io::Result<u64> {
    for k in 0..end {
        flip(header, k as usize, again);
        test_cases::hex(refusal(header), to)?;
        flip(header, k as usize, again);
    }
    Ok(0)
}

// ---- the operations

fn header_write(numbers: &[u8], lent: &mut [u8]) -> u64 {
    let mut fields = test_values::no_values();
    let n = test_values::values(numbers, &mut fields);
    abi_header::header_write(&fields[0..n], lent) as u64
}

// The status of an operation that lends bytes.
fn status_of<W: Write>(case: Case, input: &[u8], lent: &mut [u8], to: &mut W) -> io::Result<u64> {
    let operation = case.operation;
    let status = match operation {
        0 => header_reader::refusal(input) as u64,
        1 => header_write(input, lent),
        2 => seal(lent),
        _ => each_bit(lent, case.a, case.b, to)?,
    };
    Ok(status)
}

// Answers it.
fn answer<W: Write>(case: Case, input: &[u8], lent: &mut [u8], to: &mut W) -> io::Result<bool> {
    let status = status_of(case, input, lent, to)?;
    test_cases::hex(status, to)?;
    test_cases::end_bytes(lent, to)
}

// Answers the reader.
fn header_read<W: Write>(header: &[u8], lent: &mut [u64], to: &mut W) -> io::Result<bool> {
    test_cases::hex(abi_header::header_read(header, lent) as u64, to)?;
    test_cases::end_values(lent, to)
}

fn read<W: Write>(header: &[u8], bytes: &[u8], to: &mut W) -> io::Result<bool> {
    let mut lent = test_values::no_values();
    let n = test_values::values(bytes, &mut lent);
    header_read(header, &mut lent[0..n], to)
}

// Answers the reader that hands the header over by value: all its fields, on a refusal too.
fn read_by_value<W: Write>(header: &[u8], to: &mut W) -> io::Result<bool> {
    let reading = header_reader::read(header);
    test_cases::hex(reading.number as u64, to)?;
    let mut fields = no_fields();
    abi_header::put_fields(reading.header, &mut fields);
    test_cases::end_values(&fields, to)
}

fn run<W: Write>(case: Case, input: &[u8], lent: &mut [u8], to: &mut W) -> io::Result<bool> {
    if case.operation < 4 {
        return answer(case, input, lent, to);
    }
    if case.operation == 4 {
        return read(input, lent, to);
    }
    if case.operation == 5 {
        return read_by_value(input, to);
    }
    test_cases::wrong(to)
}

fn main(rt: HostRuntime) -> io::Result<()> {
    let mut input = rt.stdin();
    let mut output = rt.stdout();
    test_cases::run(&mut input, &mut output, run)
}
