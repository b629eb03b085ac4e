// Reading a frame that comes with doubtful marks (document 02, d): the tests of `frame_reader`, with the repair with marks in the place of the plain one.
#![tactic(auto)]

ghost use Rattle.std.specs.Prelude.{◌≡◌};
ghost use Rattle.dsc.specs.Marks.{marked};
ghost use Rattle.frame.specs.Read.{read_by, judge_by, cleaned_by};
ghost use Rattle.frame_reader.specs.Examined.{examined_by};

use frame::{Cleaned, Edition, Reading, Tuner, Verdict};
use frame_reader::Examined;
use frame_refusals::Preamble;

// Any bytes and their marks, tested in the order of the refusals and read.
fn examine_marked(edition: Edition, tuner: Tuner, frame: &[u8], marks: &[u8]) -> Examined
    ensures { result ≡ examined_by edition (marked marks.now) tuner frame.now }
{
    if marks.len() != 26 {
        return frame_reader::refused(1);
    }
    match frame_refusals::preamble_of(frame) {
        Preamble::Passed(reference, pattern, differing) => {
            let answer = dsc_marked::repair_marked(frame, marks);
            frame_reader::examine_answer(edition, tuner, reference, pattern, differing, answer)
        }
        Preamble::Refused(number) => frame_reader::refused(number),
    }
}

// The record of a frame, with the tuner told and the number of unmarked places that were repaired, and beside it the bits of B1 to B16 that differed; or the
// refusal.
pub fn read_marked(edition: Edition, tuner: Tuner, frame: &[u8], marks: &[u8]) -> Reading
    ensures { result ≡ read_by edition (marked marks.now) tuner frame.now }
{
    let examined = examine_marked(edition, tuner, frame, marks);
    examined.reading
}

// Whether a frame is accepted: the refusal's number, or 0 with the number of its repaired unmarked places.
pub fn judge_marked(edition: Edition, frame: &[u8], marks: &[u8]) -> Verdict
    ensures { result ≡ judge_by edition (marked marks.now) frame.now }
{
    frame_reader::verdict_of(read_marked(edition, Tuner::None, frame, marks))
}

// The frame with its damage repaired.
pub fn clean_marked(edition: Edition, frame: &[u8], marks: &[u8]) -> Cleaned
    ensures { result ≡ cleaned_by edition (marked marks.now) frame.now }
{
    frame_reader::cleaned_of(examine_marked(edition, Tuner::None, frame, marks))
}
