// Frames over plain numbers and slices, as a C program can call them: the edition and the tuner are named by their
// numbers, and a record is its values in their order.
#![tactic(auto)]

ghost use Rattle.std.specs.Prelude.{◌≡◌, ◌*◌, length};
ghost use Rattle.dsc.specs.Marks.{unmarked};
ghost use Rattle.abi_record.specs.Values.{value_count};
ghost use Rattle.abi_edition.specs.Edition.{edition_of};
ghost use Rattle.abi_tuner.specs.Tuner.{tuner_of};
ghost use Rattle.abi_frame.specs.Frame.{reading_status, reading_values, frame_read_status, frame_read_record, frame_write_status, frame_write_bytes, warned_status};

use abi_record::VALUES;
use frame::Reading;

// The status of an accepted frame: the bits of B1 to B16 that differed from the pattern. The byte below them tells nothing, since the repaired places
// stand in the record.
fn accepted_status(differing: u8) -> u32
    ensures { result ≡ 65536 * differing }
{
    65536 * (differing as u32)
}

// What was read, told: the record's values where the frame is accepted. It requires the buffer's length, since its callers have tested it.
pub fn put_reading(reading: Reading, values: &mut [u64]) -> u32
    requires { length values.old ≡ value_count }
    ensures status { result ≡ reading_status reading }
    ensures values { values.new ≡ reading_values reading values.old }
{
    match reading {
        Reading::Accepted(message, differing) => {
            abi_record::put_record(message, values);
            accepted_status(differing)
        }
        Reading::Refused(number) => abi::status(number, 0),
    }
}

// Reads a frame, told the tuner; the record's values where it is accepted.
pub fn frame_read(edition: u32, tuner: u32, frame: &[u8], values: &mut [u64]) -> u32
    ensures status { result ≡ frame_read_status (edition_of edition) unmarked (tuner_of tuner) frame.now values.old }
    ensures values { values.new ≡ frame_read_record (edition_of edition) unmarked (tuner_of tuner) frame.now values.old }
{
    if values.len() != VALUES {
        return abi::status(1, 0);
    }
    let told = abi_tuner::tuner_of(tuner as u64);
    let reading = frame_reader::read(abi_edition::edition_of(edition), told, frame);
    put_reading(reading, values)
}

// Writes the frame of a record.
pub fn frame_write(edition: u32, values: &[u64], frame: &mut [u8]) -> u32
    ensures status { result ≡ frame_write_status (edition_of edition) values.now frame.old }
    ensures frame { frame.new ≡ frame_write_bytes (edition_of edition) values.now frame.old }
{
    if values.len() != VALUES {
        return abi::status(1, 0);
    }
    let written = frame_writer::write(
        abi_edition::edition_of(edition),
        abi_record::record_at(values),
        frame,
    );
    abi::status(written, 0)
}

// Whether an area of a record is warned: 1 above the number where it is.
pub fn warned(values: &[u64], area: u64) -> u32
    ensures { result ≡ warned_status values.now area }
{
    if values.len() != VALUES {
        return abi::status(1, 0);
    }
    if frame_kinds::warned(abi_record::record_at(values), area) {
        return abi::status(0, 1);
    }
    abi::status(0, 0)
}
