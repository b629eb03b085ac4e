// Frame n of two captures, read by the edition named: the two tuners and the reader together. The record says which tuner it came from.
#![tactic(auto)]

ghost use Rattle.std.specs.Prelude.{◌≡◌};
ghost use Rattle.capture_reader.specs.CaptureRead.{reading_at, capture_read_of};

use frame::{Edition, Reading, Record, Tuner};

// What reading a frame of two captures answers: its record, with its tuner, and how many bits of B1 to B16 differed from the pattern; or both tuners'
// refusal numbers, main first, where neither has it.
#[derive(Clone, Copy)]
pub enum CaptureReading {
    Accepted(Record, u8),
    Refused(u8, u8),
}

// Frame n of a tuner's capture, read: refused with 1 where its 26 bytes do not all lie in it.
fn read_at(edition: Edition, tuner: Tuner, capture: &[u8], n: usize) -> Reading
    ensures { result ≡ reading_at edition tuner capture.now n }
{
    if n < capture.len() / 26 {
        return frame_reader::read(edition, tuner, capture::part(capture, n));
    }
    Reading::Refused(1)
}

// The main one's record if the frame is accepted there, otherwise the spare one's if it is accepted there, otherwise both numbers.
pub fn read(edition: Edition, main: &[u8], spare: &[u8], n: usize) -> CaptureReading
    ensures { result ≡ capture_read_of edition main.now spare.now n }
{
    match read_at(edition, Tuner::Main, main, n) {
        Reading::Accepted(contents, differing) => CaptureReading::Accepted(contents, differing),
        Reading::Refused(first) => match read_at(edition, Tuner::Spare, spare, n) {
            Reading::Accepted(contents, differing) => CaptureReading::Accepted(contents, differing),
            Reading::Refused(second) => CaptureReading::Refused(first, second),
        },
    }
}
