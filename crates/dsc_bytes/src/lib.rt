// Words of 187 bits, a bool for each bit, out of a frame's bytes and into bytes, and the repair's answers. Only the crates of the code call these functions; they
// have tested the frame's length before, so sizes are required and nothing is tested.
#![tactic(auto)]

ghost use Rattle.std.specs.Prelude.{◌≡◌, ◌*◌, ◌<◌, ◌≤◌, length, take, drop};
ghost use Rattle.bits.specs.Bits.{value, bits, digit};
ghost use Rattle.dsc.specs.Repair.{protected, word_bytes, refused_with, repaired_to};
ghost use Rattle.dsc_bits.specs.Words.{at};
ghost use Rattle.dsc_bytes.specs.Padded.{padded};

use dsc::{Answer, Outcome};

// Bit k of a frame.
fn frame_bit(f: &[u8], k: usize) -> bool
    requires { (length f.now ≡ 26) × (k < 208) }
    ensures { result ≡ at (bits f.now) k }
{
    bit_parts::bit(f, k / 8, k % 8) == 1
}

// The protected part, B17 to B203.
pub fn received(f: &[u8]) -> [bool; 187]
    requires { length f.now ≡ 26 }
    ensures { result ≡ protected f.now }
{
    let mut w = dsc_bits::clear();
    for n in 0..187 {
        w[n] = frame_bit(f, 17 + n);
    }
    w
}

// Bit k of a frame that holds w and nothing else.
#[tactic(auto, using(crate::proofs::Frames::around), unfolding(bits::specs::Bits::digit))]
fn padded_bit(w: &[bool], k: usize) -> u8
    requires { length w.now ≡ 187 }
    ensures { (result ≡ digit (at (padded w.now) k)) × (result ≤ 1) }
{
    if k < 17 {
        return 0;
    }
    if k < 204 {
        return dsc_bits::one(w[k - 17]);
    }
    0
}

// Byte j of that frame.
fn octet(w: &[bool], j: usize) -> u8
    requires { (length w.now ≡ 187) × (j < 26) }
    ensures { result ≡ value (take 8 (drop (8 * j) (padded w.now))) }
{
    let mut v = 0;
    for i in 0..8 {
        v = v * 2 + padded_bit(w, 8 * j + i);
    }
    v
}

// The 26 bytes that hold w at B17 to B203 and 0 elsewhere.
pub fn word_bytes(w: &[bool]) -> [u8; 26]
    requires { length w.now ≡ 187 }
    ensures { result ≡ word_bytes w.now }
{
    let mut b = [0; 26];
    for j in 0..26 {
        b[j] = octet(w, j);
    }
    b
}

// A refusal, with no word.
pub fn refused(number: u8) -> Answer
    ensures { result ≡ refused_with number }
{
    Answer {
        outcome: Outcome::Refused(number),
        word: [0; 26],
    }
}

// A repaired word, and in how many places it differs.
pub fn repaired(word: &[bool], places: u8) -> Answer
    requires { length word.now ≡ 187 }
    ensures { result ≡ repaired_to word.now places }
{
    let word = word_bytes(word);
    Answer {
        outcome: Outcome::Repaired(places),
        word,
    }
}
