// Frames with doubtful marks over plain numbers and slices, as a C program can call them.
#![tactic(auto)]

ghost use Rattle.std.specs.Prelude.{◌≡◌, ◌+◌, ◌*◌};
ghost use Rattle.dsc.specs.Marks.{marked};
ghost use Rattle.abi.specs.Status.{status_of};
ghost use Rattle.abi_edition.specs.Edition.{edition_of};
ghost use Rattle.abi_tuner.specs.Tuner.{tuner_of};
ghost use Rattle.abi_frame.specs.Frame.{frame_read_status, frame_read_record};
ghost use Rattle.abi_marked_frame.specs.Judged.{damage_status, judge_marked_status};

use abi_record::VALUES;
use frame::{Edition, Reading, Tuner};

// Reads a frame with its marks, told the tuner; the record's values where it is accepted.
pub fn frame_read_marked(
    edition: u32,
    tuner: u32,
    frame: &[u8],
    marks: &[u8],
    values: &mut [u64],
) -> u32
    ensures status { result ≡ frame_read_status (edition_of edition) (marked marks.now) (tuner_of tuner) frame.now values.old }
    ensures values { values.new ≡ frame_read_record (edition_of edition) (marked marks.now) (tuner_of tuner) frame.now values.old }
{
    if values.len() != VALUES {
        return abi::status(1, 0);
    }
    let told = abi_tuner::tuner_of(tuner as u64);
    let reading = frame_marked_reader::read_marked(
        abi_edition::edition_of(edition),
        told,
        frame,
        marks,
    );
    abi_frame::put_reading(reading, values)
}

// A number with the repaired places above it and the differing bits above these.
fn damage(number: u8, places: u8, differing: u8) -> u32
    ensures { result ≡ status_of number places + 65536 * differing }
{
    abi::status(number, places) + 65536 * (differing as u32)
}

// Judges a frame with its marks, by the first edition: the repaired unmarked places and the bits of B1 to B16 that differed stand above the number.
pub fn frame_judge_marked(frame: &[u8], marks: &[u8]) -> u32
    ensures { result ≡ judge_marked_status frame.now marks.now }
{
    match frame_marked_reader::read_marked(Edition::First, Tuner::None, frame, marks) {
        Reading::Accepted(message, differing) => damage(0, message.origin.repaired, differing),
        Reading::Refused(number) => damage(number, 0, 0),
    }
}
