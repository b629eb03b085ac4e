// Runs test cases of the day's ledger: see `test_cases`. The cases, and what they must answer, come from rust/vectors. A case's third number names the
// edition, as a C program does; a ledger is a slice of numbers.
#![tactic(auto)]

use std::io;
use std::io::Write;
use test_cases::Case;

// The status of an operation that is lent a ledger.
fn lent_status(case: Case, input: &[u8], lent: &mut [u64]) -> u64 {
    if case.operation == 0 {
        let edition = (case.c % 0x100000000) as u32;
        return abi_ledger::ledger_count(edition, lent, input) as u64;
    }
    abi_ledger::ledger_parse(input, lent) as u64
}

// Answers it.
fn answer<W: Write>(case: Case, input: &[u8], lent: &mut [u64], to: &mut W) -> io::Result<bool> {
    test_cases::hex(lent_status(case, input, lent), to)?;
    test_cases::end_values(lent, to)
}

fn lent_ledger<W: Write>(case: Case, input: &[u8], bytes: &[u8], to: &mut W) -> io::Result<bool> {
    let mut lent = test_values::no_values();
    let n = test_values::values(bytes, &mut lent);
    answer(case, input, &mut lent[0..n], to)
}

// The status of an operation on a ledger.
fn status_of(case: Case, ledger: &[u64], lent: &mut [u8]) -> u64 {
    if case.operation == 1 {
        return abi_ledger::ledger_length(ledger) as u64;
    }
    abi_ledger::ledger_print(ledger, lent) as u64
}

// Answers it.
fn ledger<W: Write>(case: Case, input: &[u8], lent: &mut [u8], to: &mut W) -> io::Result<bool> {
    let mut numbers = test_values::no_values();
    let n = test_values::values(input, &mut numbers);
    test_cases::hex(status_of(case, &numbers[0..n], lent), to)?;
    test_cases::end_bytes(lent, to)
}

fn run<W: Write>(case: Case, input: &[u8], lent: &mut [u8], to: &mut W) -> io::Result<bool> {
    let operation = case.operation;
    match operation {
        0 | 3 => lent_ledger(case, input, lent, to),
        1 | 2 => ledger(case, input, lent, to),
        _ => test_cases::wrong(to),
    }
}

fn main(rt: HostRuntime) -> io::Result<()> {
    let mut input = rt.stdin();
    let mut output = rt.stdout();
    test_cases::run(&mut input, &mut output, run)
}
