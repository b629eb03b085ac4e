// Laying a frame into a header, by the edition named, with doubtful marks or without, and taking it out. The rules are those of `header_laying`.
#![tactic(auto)]

ghost use Rattle.std.specs.Prelude.{◌≡◌, length};
ghost use Rattle.bits.specs.Bits.{bits};
ghost use Rattle.bits.specs.Layout.{pack, unpack};
ghost use Rattle.dsc.specs.Marks.{unmarked, marked};
ghost use Rattle.header.specs.Header.{header_refusal};
ghost use Rattle.header_laying.specs.Laying.{with_ac, lay_in_number, lay_in_of, take_out_of};
ghost use Rattle.header_tables.specs.AcTables.{ac_widths};
ghost use Rattle.header_inserter.specs.AcBits.{with_first, with_cleaned};

use frame::{Cleaned, Edition};

// The first 204 bits of a frame.
fn ac_values(frame: &[u8; 26]) -> [u64; 26]
    ensures { result ≡ unpack ac_widths (bits frame.now) }
{
    let widths = header_tables::extension_free();
    let mut values = header_arrays::zeros::<26>();
    bit_layouts::read_all(frame, &widths, &mut values);
    values
}

// The bits into the part that starts at byte 99: the bits after them stay.
fn put_ac(part: &mut [u8], values: &[u64; 26])
    requires { length part.old ≡ 89 }
    ensures { part.new ≡ with_first (pack ac_widths values.now) part.old }
{
    let widths = header_tables::extension_free();
    bit_layouts::write_all(part, &widths, values);
}

// The bits into a header, and the CRC.
fn put_into(header: &mut [u8], values: &[u64; 26])
    requires { length header.old ≡ 188 }
    ensures { header.new ≡ with_ac header.old (pack ac_widths values.now) }
{
    put_ac(&mut header[99..], values);
    header_writer::seal(header);
}

// The 204 bits of a cleaned frame into a header that was tested; where the frame was refused the header stays as it was.
fn lay_cleaned(header: &mut [u8], cleaned: Cleaned) -> u8
    requires { length header.old ≡ 188 }
    ensures number { result ≡ cleaned.number }
    ensures header { header.new ≡ with_cleaned header.old cleaned }
{
    if cleaned.number != 0 {
        return cleaned.number;
    }
    let repaired = cleaned.frame;
    let values = ac_values(&repaired);
    put_into(header, &values);
    0
}

// The repaired 204 bits of a frame into a header. The header is tested fully, then the frame; a refusal changes nothing.
pub fn lay_in(edition: Edition, header: &mut [u8], frame: &[u8]) -> u8
    ensures number { result ≡ lay_in_number edition unmarked header.old frame.now }
    ensures header { header.new ≡ lay_in_of edition unmarked header.old frame.now }
{
    let number = header_reader::refusal(header);
    if number != 0 {
        return number;
    }
    lay_cleaned(header, frame_reader::clean(edition, frame))
}

// The same of a frame that comes with doubtful marks.
pub fn lay_in_marked(edition: Edition, header: &mut [u8], frame: &[u8], marks: &[u8]) -> u8
    ensures number { result ≡ lay_in_number edition (marked marks.now) header.old frame.now }
    ensures header { header.new ≡ lay_in_of edition (marked marks.now) header.old frame.now }
{
    let number = header_reader::refusal(header);
    if number != 0 {
        return number;
    }
    lay_cleaned(
        header,
        frame_marked_reader::clean_marked(edition, frame, marks),
    )
}

// 204 ones into a header. The header alone is tested; a refusal changes nothing.
pub fn take_out(header: &mut [u8]) -> u8
    ensures number { result ≡ header_refusal header.old }
    ensures header { header.new ≡ take_out_of header.old }
{
    let number = header_reader::refusal(header);
    if number != 0 {
        return number;
    }
    let values = header_tables::ac_ones();
    put_into(header, &values);
    0
}
