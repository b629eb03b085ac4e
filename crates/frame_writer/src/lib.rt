// The writer: the frame of a record, by the edition named.
#![tactic(auto)]

ghost use Rattle.std.specs.Prelude.{◌≡◌, ◌++◌, ◌≤◌, length, drop};
ghost use Rattle.bits.specs.Bits.{bits};
ghost use Rattle.frame.specs.Identification.{start_end_of, update_of};
ghost use Rattle.frame_writer.specs.WriterParts.{front_values, front_bits, detail_bits};
ghost use Rattle.frame.specs.Write.{frame_of, write_number, write_of};

use frame::{Class, Edition, Record};

fn start_end(class: Class) -> u64
    ensures { result ≡ start_end_of class }
{
    match class {
        Class::Warning => 0,
        Class::SafetyInformation => 0,
        Class::Silent => 3,
        Class::Undefined => 0,
    }
}

fn update_of(class: Class, update: u64) -> u64
    ensures { result ≡ update_of class update }
{
    match class {
        Class::Warning => update,
        Class::SafetyInformation => update,
        Class::Silent => 3,
        Class::Undefined => update,
    }
}

// B0 to B23: reference, pattern, start/end, update, identification.
fn front_values(edition: Edition, contents: Record) -> [u64; 5]
    ensures { result ≡ front_values edition contents }
{
    let class = frame_kinds::class_of(edition, contents.identification);
    [
        contents.reference,
        sync_pattern::pattern_word(contents.pattern),
        start_end(class),
        update_of(class, contents.update),
        contents.identification,
    ]
}

// Those values, in their bits; the bits after them stay.
fn write_front(edition: Edition, contents: Record, frame: &mut [u8])
    requires { 3 ≤ length frame.old }
    ensures { bits frame.new ≡ front_bits edition contents ++ drop 24 (bits frame.old) }
{
    let ws = [1, 16, 2, 2, 3];
    let vs = front_values(edition, contents);
    bit_layouts::write_all(frame, &ws, &vs);
}

// The details, in the bytes from B24 on; the bits after them stay.
fn write_details(edition: Edition, contents: Record, part: &mut [u8])
    requires { 11 ≤ length part.old }
    ensures { bits part.new ≡ detail_bits edition contents ++ drop 88 (bits part.old) }
{
    frame_details::write_details(
        frame_legality::record_body(edition, contents),
        contents,
        part,
    );
}

// The frame of a record, whatever stood in the bytes before. The filler comes first, so that each later step
// leaves it: the front, the details from byte 3 on, where B24 stands, then the CRC and the parity over them.
fn write_frame(edition: Edition, contents: Record, frame: &mut [u8])
    requires { length frame.old ≡ 26 }
    ensures { frame.new ≡ frame_of edition contents }
{
    bit_fields::put(frame, 204, 4, 0);
    write_front(edition, contents, frame);
    write_details(edition, contents, &mut frame[3..]);
    let crc = crc10::crc10(frame, 21, 91);
    bit_fields::put(frame, 112, 10, crc as u64);
    dsc_codec::encode(frame);
}

// Writes the frame of a record into a buffer of 26 bytes, and answers 0; or refuses 1, 6, 10, 9, in that order, and leaves the buffer.
pub fn write(edition: Edition, contents: Record, buffer: &mut [u8]) -> u8
    ensures value { result ≡ write_number edition contents (length buffer.old) }
    ensures buffer_after { buffer.new ≡ write_of edition contents buffer.old }
{
    if buffer.len() != 26 {
        return 1;
    }
    let number = frame_legality::record_refusal(edition, contents);
    if number != 0 {
        return number;
    }
    write_frame(edition, contents, buffer);
    0
}
