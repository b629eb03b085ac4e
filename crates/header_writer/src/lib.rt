// Writing a header: the bytes of a record.
#![tactic(auto)]

ghost use Rattle.std.specs.Prelude.{◌≡◌, length, take, drop, ◌++◌};
ghost use Rattle.bits.specs.Bits.{bytes};
ghost use Rattle.bits.specs.Segment.{pack_segments};
ghost use Rattle.header.specs.Layout.{front_layout, extension_layout};
ghost use Rattle.header.specs.Fields.{front_fields, extension_fields};
ghost use Rattle.header.specs.Header.{sealed, write_number, write_of};

use header::{Extension, Front, Header};

// Bytes 0 to 98.
fn put_front(buffer: &mut [u8], front: Front)
    requires { length buffer.old ≡ 188 }
    ensures { buffer.new ≡ bytes 99 (pack_segments front_layout (front_fields front)) ++ drop 99 buffer.old }
{
    let v = header_fields::front_fields(front);
    let layout = header_tables::front_layout();
    segments::write_fields(buffer, &layout, &v);
}

// Bytes 99 to 183, of the part that starts at byte 99.
fn put_extension(part: &mut [u8], extension: Extension)
    requires { length part.old ≡ 89 }
    ensures { part.new ≡ bytes 85 (pack_segments extension_layout (extension_fields extension)) ++ drop 85 part.old }
{
    let ac = extension.ac;
    let layout = header_tables::extension_layout();
    segments::write_fields(part, &layout, &ac);
}

// The CRC in bytes 184 to 187. It requires a whole header: its callers have tested the length, and there is no refusal to answer with here.
pub fn seal(header: &mut [u8])
    requires { length header.old ≡ 188 }
    ensures { header.new ≡ sealed (take 184 header.old) }
{
    let crc = crc32::crc32(&header[4..184]);
    bit_fields::put(header, 1472, 32, crc as u64);
}

// A legal header into a buffer of 188 bytes.
pub fn write(header: Header, buffer: &mut [u8]) -> u8
    ensures number { result ≡ write_number header (length buffer.old) }
    ensures buffer { buffer.new ≡ write_of header buffer.old }
{
    if buffer.len() != 188 {
        return 1;
    }
    let number = header_legality::record_refusal(header);
    if number != 0 {
        return number;
    }
    put_front(buffer, header.front);
    put_extension(&mut buffer[99..], header.extension);
    seal(buffer);
    0
}
