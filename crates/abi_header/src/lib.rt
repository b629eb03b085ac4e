// Headers over plain numbers and slices, as a C program can call them: a header is its 145 fields in their order.
#![tactic(auto)]

ghost use Rattle.std.specs.Prelude.{◌≡◌, length};
ghost use Rattle.abi_header.specs.Header.{header_values, header_from, header_read_status, header_read_values, header_write_status, header_write_bytes};

use header::Header;

// The header that has these fields.
fn header_from(v: &[u64]) -> Header
    requires { length v.now ≡ 145 }
    ensures { result ≡ header_from v.now }
{
    let first = header_arrays::run::<119>(v, 0, 1);
    let second = header_arrays::run::<26>(v, 119, 1);
    let front = header_fields::front_of(&first);
    let extension = header_fields::extension_of(&second);
    Header { front, extension }
}

// The fields of a header. It requires room for them: its callers have tested that, or lend an array.
pub fn put_fields(header: Header, out: &mut [u64])
    requires { length out.old ≡ 145 }
    ensures { out.new ≡ header_values header }
{
    let front = header_fields::front_fields(header.front);
    header_arrays::put_values(&front, out, 0);
    let extension = header.extension;
    let ac = extension.ac;
    header_arrays::put_values(&ac, out, 119);
}

// Reads a header; its fields where it is accepted.
pub fn header_read(header: &[u8], values: &mut [u64]) -> u32
    ensures status { result ≡ header_read_status header.now values.old }
    ensures values { values.new ≡ header_read_values header.now values.old }
{
    if values.len() != 145 {
        return abi::status(1, 0);
    }
    let reading = header_reader::read(header);
    if reading.number != 0 {
        return abi::status(reading.number, 0);
    }
    put_fields(reading.header, values);
    abi::status(0, 0)
}

// Writes a header.
pub fn header_write(values: &[u64], header: &mut [u8]) -> u32
    ensures status { result ≡ header_write_status values.now header.old }
    ensures header { header.new ≡ header_write_bytes values.now header.old }
{
    if values.len() != 145 {
        return abi::status(1, 0);
    }
    abi::status(header_writer::write(header_from(values), header), 0)
}
