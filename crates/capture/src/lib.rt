// Two tuners, by the edition named, each with a capture: frames end to end, frame n at byte 26n.
#![tactic(auto)]

ghost use Rattle.std.specs.Prelude.{◌≡◌, ◌+◌, ◌*◌, ◌≤◌, length};
ghost use Rattle.capture.specs.Capture.{part_at, position_at, number_at, numbers_of, source_of, bytes_from, position_from};

use frame::{Edition, Tuner};

// Both tuners' refusal numbers, 0 for accepted.
#[derive(Clone, Copy)]
pub struct TunerNumbers {
    pub main: u8,
    pub spare: u8,
}

// Frame n's own bytes, where they stand in the capture. It requires that they all lie there: its callers have tested that.
pub fn part(capture: &[u8], n: usize) -> &[u8]
    requires { 26 * n + 26 ≤ length capture.now }
    ensures bytes { result.now ≡ part_at capture.now n }
    ensures place { result.ref_ptr ≡ position_at capture.entry.ref_ptr n }
{
    let start = 26 * n;
    let end = start + 26;
    &capture[start..end]
}

// A tuner's number for frame n, however large: 1 where the 26 bytes do not all lie in the capture.
pub fn number(edition: Edition, capture: &[u8], n: usize) -> u8
    ensures { result ≡ number_at edition capture.now n }
{
    if n < capture.len() / 26 {
        return frame_reader::judge(edition, part(capture, n)).number;
    }
    1
}

// Both tuners' numbers, main first.
pub fn numbers(edition: Edition, main: &[u8], spare: &[u8], n: usize) -> TunerNumbers
    ensures { result ≡ numbers_of edition main.now spare.now n }
{
    TunerNumbers {
        main: number(edition, main, n),
        spare: number(edition, spare, n),
    }
}

// Main where the frame is accepted there, otherwise spare where it is accepted there, otherwise none.
pub fn source(edition: Edition, main: &[u8], spare: &[u8], n: usize) -> Tuner
    ensures { result ≡ source_of edition main.now spare.now n }
{
    if number(edition, main, n) == 0 {
        return Tuner::Main;
    }
    if number(edition, spare, n) == 0 {
        return Tuner::Spare;
    }
    Tuner::None
}

// The frame's own bytes, where they stand in the capture that it is taken from; an empty part where neither has it.
pub fn frame_at<'a>(edition: Edition, main: &'a [u8], spare: &'a [u8], n: usize) -> &'a [u8]
    ensures bytes { result.now ≡ bytes_from (source_of edition main.now spare.now n) main.now spare.now n }
    ensures place { result.ref_ptr ≡ position_from (source_of edition main.now spare.now n) main.entry.ref_ptr spare.entry.ref_ptr n }
{
    match source(edition, main, spare, n) {
        Tuner::Main => {
            return part(main, n);
        }
        Tuner::Spare => {
            return part(spare, n);
        }
        Tuner::None => {
            return &main[0..0];
        }
    }
}
