// Runs test cases of reports and places, doubles by their bits: see `test_cases`. The cases, and what they must answer, come from rust/vectors. The third
// number of a report names the edition, as a C program does.
#![tactic(auto)]

use std::io;
use std::io::Write;
use test_cases::Case;

fn put_doubles<W: Write>(s: &[f64; 4], to: &mut W) -> io::Result<()> {
    for i in 0..4 {
        test_cases::hex(test_values::bits_of(s[i]), to)?;
    }
    Ok(())
}

// Lends so many of four doubles, and tells them all.
fn lend_doubles<W: Write>(
    edition: u32,
    fields: &[u64],
    before: f64,
    lent: usize,
    to: &mut W,
) -> io::Result<u64> {
    let mut place = [before; 4];
    let n = numbers::smaller(lent, 4);
    let status = abi_place::report(edition, fields, &mut place[0..n]) as u64;
    put_doubles(&place, to)?;
    Ok(status)
}

fn report<W: Write>(
    edition: u32,
    numbers: &[u8],
    before: f64,
    lent: usize,
    to: &mut W,
) -> io::Result<u64> {
    let mut fields = test_values::no_values();
    let n = test_values::values(numbers, &mut fields);
    lend_doubles(edition, &fields[0..n], before, lent, to)
}

fn desk(a: u64, b: u64, c: u64, lent: &mut [u64]) -> u64 {
    abi_place::desk(
        test_values::double(a),
        test_values::double(b),
        test_values::double(c),
        lent,
    ) as u64
}

fn degrees(flag: u64, tenths: u64) -> u64 {
    test_values::bits_of(place_images::degrees(flag, tenths))
}

// What the desk makes of a longitude alone: its tenths, and 2048 for west; or 4096 and the refusal.
fn longitude_of(bits: u64) -> u64 {
    let mut fields = [0u64; 5];
    let status = desk(0, bits, 0, &mut fields);
    if status != 0 {
        return 4096 | status;
    }
    fields[2] << 11 | fields[3]
}

// What the desk makes of the images of the tenths from a number on, with some of their bits turned over, into the lent numbers; the status is the sum of the images' bits.
fn longitudes(flag: u64, first: u64, turned: u64, out: &mut [u64]) -> u64 {
    let mut sum: u64 = 0;
    for i in 0..out.len() {
        let image = degrees(flag, first.wrapping_add(i as u64));
        out[i] = longitude_of(image ^ turned);
        sum = sum.wrapping_add(image);
    }
    sum
}

// ---- the operations

fn status_of<W: Write>(case: Case, input: &[u8], lent: &mut [u64], to: &mut W) -> io::Result<u64> {
    let operation = case.operation;
    let status = match operation {
        0 => report(
            (case.c % 0x100000000) as u32,
            input,
            test_values::double(case.a),
            case.b as usize,
            to,
        )?,
        1 => desk(case.a, case.b, case.c, lent),
        2 => degrees(case.a, case.b),
        3 => test_values::bits_of(place_images::kilometres(case.a)),
        _ => longitudes(case.a, case.b, case.c, lent),
    };
    Ok(status)
}

// Answers an operation, which lends numbers.
fn lending<W: Write>(case: Case, input: &[u8], lent: &mut [u64], to: &mut W) -> io::Result<bool> {
    let status = status_of(case, input, lent, to)?;
    test_cases::hex(status, to)?;
    test_cases::end_values(lent, to)
}

fn run<W: Write>(case: Case, input: &[u8], bytes: &[u8], to: &mut W) -> io::Result<bool> {
    if 4 < case.operation {
        return test_cases::wrong(to);
    }
    let mut lent = test_values::no_values();
    let n = test_values::values(bytes, &mut lent);
    lending(case, input, &mut lent[0..n], to)
}

fn main(rt: HostRuntime) -> io::Result<()> {
    let mut input = rt.stdin();
    let mut output = rt.stdout();
    test_cases::run(&mut input, &mut output, |case, input, lent, to| {
        run(case, input, lent, to)
    })
}
