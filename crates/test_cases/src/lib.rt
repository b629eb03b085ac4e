// Test cases that a reader gives, and their answers on a writer.
//
// A case is an operation's number, a byte; the lengths of its two slices in bytes, two bytes each, most significant first; the runs of three numbers of eight bytes and
// of the first slice; and the runs of the second slice, which is lent to be written. A run is two bytes: how often a byte stands in a row, and the byte. A slice of numbers
// has eight bytes for each, most significant first; a double is the number that its bits make up.
//
// An answer is a line: the case's number, what the operation tells on its way, a status, and the lent slice as it stands after the call, bytes after a colon, numbers after a
// space each, all hexadecimal but the case's number. What stands n times in a row in the slice is written once, with `*n`, and of bytes a point.
#![tactic(auto)]

ghost use Rattle.std.specs.Prelude.{◌≡◌, ◌≤◌, true, false, length, IfOk, IfSome};
ghost use Rattle.bits.specs.Field.{get_of};

use std::io;
use std::io::{Read, Write};

// A case: its operation and numbers, and how many bytes its slices have, 4064 at most.
#[derive(Clone, Copy)]
pub struct Case {
    pub operation: u8,
    pub a: u64,
    pub b: u64,
    pub c: u64,
    pub input: usize,
    pub lent: usize,
}

#[derive(Clone, Copy)]
struct Repeat {
    count: usize,
    byte: u8,
}

// ---- cases

// 4096 zeros: room for a case's numbers and its first slice, or for its second.
fn buffer() -> [u8; 4096]
    ensures { 4096 ≡ length result }
{
    [0; 4096]
}

fn wide(b: u8) -> usize
    ensures { result ≡ b }
{
    b as usize
}

// The next run; of no byte where the input has ended.
fn next_run<R: Read>(from: &mut R) -> io::Result<Repeat> {
    let mut pair = [0u8; 2];
    if input_io::read(2, &mut pair, from)? != 2 {
        return Ok(Repeat { count: 0, byte: 0 });
    }
    Ok(Repeat {
        count: wide(pair[0]),
        byte: pair[1],
    })
}

// Fills the first n bytes of a slice from the next runs, if it has as many and they make up as many.
fn read_runs<R: Read>(s: &mut [u8], n: usize, from: &mut R) -> io::Result<bool> {
    let mut at = 0;
    if s.len() < n {
        return Ok(false);
    }
    while at < n {
        let run = next_run(from)?;
        let count = run.count;
        if count == 0 {
            return Ok(false);
        }
        if n - at < count {
            return Ok(false);
        }
        test_values::fill(&mut s[at..at + count], run.byte);
        at += count;
    }
    Ok(true)
}

// Ends with an answer that tells that the input has no case here, or one that there is not: it cannot be read any further.
pub fn wrong<W: Write>(to: &mut W) -> io::Result<bool>
    ensures { IfOk result (λ b. b ≡ false) }
{
    to.write_all(b" wrong case\n")?;
    Ok(false)
}

// The case whose numbers stand in front.
fn case_of(operation: u8, numbers: &[u8], input: usize, lent: usize) -> Case
    ensures input_value { (result.input ≡ input) × (result.lent ≡ lent) }
    ensures operation_value { result.operation ≡ operation }
    ensures a_value { (result.a ≡ get_of numbers.now 0 64) × (result.b ≡ get_of numbers.now 64 64) × (result.c ≡ get_of numbers.now 128 64) }
{
    Case {
        operation,
        a: bit_fields::get(numbers, 0, 64),
        b: bit_fields::get(numbers, 64, 64),
        c: bit_fields::get(numbers, 128, 64),
        input,
        lent,
    }
}

// Reads the numbers and both slices; no case where they are too long or not all there.
fn read_slices<R: Read>(
    operation: u8,
    input: usize,
    lent: usize,
    first: &mut [u8],
    second: &mut [u8],
    from: &mut R,
) -> io::Result<Option<Case>>
    ensures { IfOk result (λ o. IfSome o (λ c. (c.input ≤ 4064) × (c.lent ≤ 4064))) }
{
    if 4064 < input || 4064 < lent {
        return Ok(None);
    }
    if !read_runs(first, 24 + input, from)? || !read_runs(second, lent, from)? {
        return Ok(None);
    }
    Ok(Some(case_of(operation, first, input, lent)))
}

// Reads case n: 24 bytes of numbers and then its first slice into one buffer, its second slice into the other. There is none at the end of the input, and where what is
// wrong has been told.
fn next_case<R: Read, W: Write>(
    n: u64,
    first: &mut [u8],
    second: &mut [u8],
    from: &mut R,
    to: &mut W,
) -> io::Result<Option<Case>>
    ensures { IfOk result (λ o. IfSome o (λ c. (c.input ≤ 4064) × (c.lent ≤ 4064))) }
{
    let mut head = [0u8; 5];
    let got = input_io::read(5, &mut head, from)?;
    if got == 0 {
        return Ok(None);
    }
    write!(to, "{n}")?;
    if got != 5 {
        wrong(to)?;
        return Ok(None);
    }
    let input = bit_fields::get(&head, 8, 16) as usize;
    let lent = bit_fields::get(&head, 24, 16) as usize;
    let case = read_slices(head[0], input, lent, first, second, from)?;
    if case.is_none() {
        wrong(to)?;
    }
    Ok(case)
}

// Reads and answers case n; whether there may be a next one.
fn turn<R: Read, W: Write, F: FnMut(Case, &[u8], &mut [u8], &mut W) -> io::Result<bool>>(
    n: u64,
    from: &mut R,
    to: &mut W,
    answer: &mut F,
) -> io::Result<bool>
    requires { (f : F) (case : _) (input : _) (lent : _) (to : _) → case.input ≤ 4064 → case.lent ≤ 4064 → length input.now ≡ case.input → length lent.now ≡ case.lent → F.pre f case input lent to }
{
    let mut first = buffer();
    let mut second = buffer();
    let Some(case) = next_case(n, &mut first, &mut second, from, to)? else {
        return Ok(false);
    };
    let input = case.input;
    let lent = case.lent;
    answer(case, &first[24..24 + input], &mut second[..lent], to)
}

// Reads the cases one after the other and hands each, with slices of its two lengths, to its answer, which says whether there may be a next one: case 999,999 is the last.
pub fn run<R: Read, W: Write, F: FnMut(Case, &[u8], &mut [u8], &mut W) -> io::Result<bool>>(
    from: &mut R,
    to: &mut W,
    mut answer: F,
) -> io::Result<()>
    requires { (f : F) (case : _) (input : _) (lent : _) (to : _) → case.input ≤ 4064 → case.lent ≤ 4064 → length input.now ≡ case.input → length lent.now ≡ case.lent → F.pre f case input lent to }
{
    for n in 1..1000000 {
        if !turn(n, from, to, &mut answer)? {
            break;
        }
    }
    Ok(())
}

// ---- answers

// A space and a number.
pub fn hex<W: Write>(n: u64, to: &mut W) -> io::Result<()> {
    write!(to, " {n:x}")
}

// How often something stands.
fn times<W: Write>(n: u64, to: &mut W) -> io::Result<()> {
    write!(to, "*{n}")
}

// A byte that stands n times in a row: where that is more than once, with a point after the number, since digits follow.
fn byte_run<W: Write>(b: u8, n: u64, to: &mut W) -> io::Result<()> {
    write!(to, "{b:02x}")?;
    if 1 < n {
        times(n, to)?;
        to.write_all(b".")?;
    }
    Ok(())
}

// Ends an answer with a lent slice of bytes; the next case may be read.
pub fn end_bytes<W: Write>(s: &[u8], to: &mut W) -> io::Result<bool>
    ensures { IfOk result (λ b. b ≡ true) }
{
    to.write_all(b":")?;
    for run in s.chunk_by(|a, b| a == b) {
        byte_run(run[0], run.len() as u64, to)?;
    }
    to.write_all(b"\n")?;
    Ok(true)
}

// A number that stands n times in a row.
fn number_run<W: Write>(number: u64, n: u64, to: &mut W) -> io::Result<()> {
    hex(number, to)?;
    if 1 < n {
        times(n, to)?;
    }
    Ok(())
}

// Ends an answer with a lent slice of numbers.
pub fn end_values<W: Write>(s: &[u64], to: &mut W) -> io::Result<bool>
    ensures { IfOk result (λ b. b ≡ true) }
{
    for run in s.chunk_by(|a, b| a == b) {
        number_run(run[0], run.len() as u64, to)?;
    }
    to.write_all(b"\n")?;
    Ok(true)
}
