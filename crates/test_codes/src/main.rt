// Runs test cases of the checksums, of the code and of fields of bits: see `test_cases`. The cases, and what they must answer, come from rust/vectors.
#![tactic(auto)]

use dsc::Outcome;
use std::io;
use std::io::Write;
use test_cases::Case;

// The CRC-10 from a bit on, of no bit, of one, and so on; and of all of them.
fn crc10_counts<W: Write>(s: &[u8], at: usize, count: usize, to: &mut W) -> io::Result<u64> {
    for i in 0..count {
        test_cases::hex(crc10::crc10(s, at, i) as u64, to)?;
    }
    Ok(crc10::crc10(s, at, count) as u64)
}

// The CRC-32 of nothing, of the first byte, of the first two, and so on; and of all.
fn crc32_lengths<W: Write>(s: &[u8], to: &mut W) -> io::Result<u64> {
    for i in 0..s.len() {
        test_cases::hex(crc32::crc32(&s[0..i]) as u64, to)?;
    }
    Ok(crc32::crc32(s) as u64)
}

fn encode(frame: &mut [u8]) -> u64 {
    dsc_codec::encode(frame);
    0
}

fn put_word(word: &[u8], lent: &mut [u8]) {
    if word.len() <= lent.len() {
        lent[..word.len()].copy_from_slice(word);
    }
}

// The repair that hands its word over by value: the word goes into the lent bytes, on a refusal too.
fn repair_by_value(frame: &[u8], lent: &mut [u8]) -> u64 {
    let answer = dsc_codec::repair(frame);
    let word = answer.word;
    put_word(&word, lent);
    let outcome = answer.outcome;
    match outcome {
        Outcome::Repaired(places) => 256 * places as u64,
        Outcome::Refused(number) => number as u64,
    }
}

fn put(s: &mut [u8], at: usize, width: usize, value: u64) -> u64 {
    bit_fields::put(s, at, width, value);
    0
}

fn answer<W: Write>(
    case: Case,
    a: usize,
    b: usize,
    input: &[u8],
    lent: &mut [u8],
    to: &mut W,
) -> io::Result<u64> {
    let operation = case.operation;
    let status = match operation {
        0 => crc10::crc10(input, a, b) as u64,
        1 => crc10_counts(input, a, b, to)?,
        2 => crc32::crc32(input) as u64,
        3 => crc32_lengths(input, to)?,
        4 => encode(lent),
        5 => abi_repair::repair(input, lent) as u64,
        6 => abi_repair::repair_register(input, lent) as u64,
        7 => repair_by_value(input, lent),
        8 => bit_fields::get(input, a, b),
        _ => put(lent, a, b, case.c),
    };
    Ok(status)
}

fn run<W: Write>(case: Case, input: &[u8], lent: &mut [u8], to: &mut W) -> io::Result<bool> {
    if 9 < case.operation {
        return test_cases::wrong(to);
    }
    let status = answer(case, case.a as usize, case.b as usize, input, lent, to)?;
    test_cases::hex(status, to)?;
    test_cases::end_bytes(lent, to)
}

fn main(rt: HostRuntime) -> io::Result<()> {
    let mut input = rt.stdin();
    let mut output = rt.stdout();
    test_cases::run(&mut input, &mut output, run)
}
