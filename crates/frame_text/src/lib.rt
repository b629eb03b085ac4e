// What the box answers to frames, as lines of text. Of a frame read: `1 accepted 0 0`, its repaired places and its differing synchronising bits, and the
// record's fields, or `2 refused 4`.
// Of a frame repaired: `1 repaired 0` and the repaired word, or `2 refused 4`. What the lines tell of is proved in `frame_reader` and `dsc_codec`.
#![tactic(auto)]

use dsc::Outcome;
use frame::{Edition, FIELDS, Reading, Record, Tuner};
use std::io;
use std::io::{Read, Write};

// What is asked of each frame: reading names the edition.
#[derive(Clone, Copy)]
pub enum Question {
    Read(Edition),
    Repair,
}

// Bytes, two hexadecimal digits each.
fn bytes<W: Write>(s: &[u8], to: &mut W) -> io::Result<()> {
    for b in s {
        write!(to, "{b:02x}")?;
    }
    Ok(())
}

// The fields in their order, a space before each.
fn record<W: Write>(r: Record, to: &mut W) -> io::Result<()> {
    let v = frame_fields::fields_of(r);
    for k in 0..FIELDS {
        let field = v[k];
        write!(to, " {field}")?;
    }
    Ok(())
}

// What a refusal's line says.
fn refused<W: Write>(n: u8, to: &mut W) -> io::Result<()> {
    write!(to, " refused {n}")
}

// What the line of a frame says of its reading.
fn reading<W: Write>(edition: Edition, frame: &[u8], to: &mut W) -> io::Result<()> {
    match frame_reader::read(edition, Tuner::None, frame) {
        Reading::Accepted(r, differing) => {
            let repaired = r.origin.repaired;
            write!(to, " accepted {repaired} {differing}")?;
            record(r, to)
        }
        Reading::Refused(n) => refused(n, to),
    }
}

// What the line of a frame says of its repair.
fn repair<W: Write>(frame: &[u8], to: &mut W) -> io::Result<()> {
    let answer = dsc_codec::repair(frame);
    match answer.outcome {
        Outcome::Repaired(places) => {
            write!(to, " repaired {places} ")?;
            bytes(&answer.word, to)
        }
        Outcome::Refused(n) => refused(n, to),
    }
}

// The line of frame n.
fn line<W: Write>(asked: Question, n: u64, frame: &[u8], to: &mut W) -> io::Result<()> {
    write!(to, "{n}")?;
    match asked {
        Question::Read(edition) => reading(edition, frame, to)?,
        Question::Repair => repair(frame, to)?,
    }
    to.write_all(b"\n")
}

// Reads a piece of 26 bytes and writes its line, and answers whether there was one; a short last piece is a frame.
fn turn<R: Read, W: Write>(asked: Question, n: u64, from: &mut R, to: &mut W) -> io::Result<bool> {
    let mut piece = [0u8; 26];
    let got = input_io::read(26, &mut piece, from)?;
    if got == 0 {
        return Ok(false);
    }
    line(asked, n, &piece[..got], to)?;
    Ok(true)
}

// The lines of the frames that a reader gives, 26 bytes each, 999,999 at most.
pub fn run<R: Read, W: Write>(asked: Question, from: &mut R, to: &mut W) -> io::Result<()> {
    for n in 1..1000000 {
        if !turn(asked, n, from, to)? {
            break;
        }
    }
    Ok(())
}
