// Bits of a row of bytes, most significant first: read and written as fields.
#![tactic(auto)]

ghost use Rattle.std.specs.Prelude.{◌≡◌, ◌+◌, ◌*◌, ◌≤◌, length};
ghost use Rattle.bits.specs.Bits.{bits};
ghost use Rattle.bits.specs.Field.{field_at, put_bits, within, get_of, put_of};

// The width bits from bit at on, as a number, one byte's part at a turn. The place is kept as a byte
// and an offset in it, since eight times a length may not fit.
fn read_field(s: &[u8], at: usize, width: usize) -> u64
    requires { (width ≤ 64) × (at + width ≤ 8 * length s.now) }
    ensures { result ≡ field_at s.now at width }
{
    let first = at / 8;
    let off = at % 8;
    let mut v: u64 = 0;
    let mut i = 0;
    // A turn takes a part of one byte, of one to eight bits: no iterator hands these out.
    while i < width {
        let k = off + i;
        let n = numbers::smaller(8 - k % 8, width - i);
        let part = bit_parts::read_part(s, first + k / 8, k % 8, n);
        v = (v << n) + part;
        i += n;
    }
    v
}

// The same, out of eight bytes at once where they are there: for widths that are not known when the program is compiled.
// It requires that the bits are there, as `bit_layouts::read_all` does, for the same reason.
pub fn read_wide(s: &[u8], at: usize, width: usize) -> u64
    requires { (width ≤ 64) × (at + width ≤ 8 * length s.now) }
    ensures { result ≡ field_at s.now at width }
{
    let first = at / 8;
    let end = at % 8 + width;
    if width == 0 {
        return 0;
    }
    if 64 <= end {
        return read_field(s, at, width);
    }
    if s.len() < first + 8 {
        return read_field(s, at, width);
    }
    numbers::low_bits(bit_parts::eight(s, first) >> (64 - end), width)
}

// The width bits from bit at on become the low bits of v. It requires that they are there, as `read_wide` does, for the same reason.
pub fn write_field(s: &mut [u8], at: usize, width: usize, v: u64)
    requires { (width ≤ 64) × (at + width ≤ 8 * length s.old) }
    ensures { bits s.new ≡ put_bits s.old at width v }
{
    let first = at / 8;
    let off = at % 8;
    let mut i = 0;
    // As in `read_field`.
    while i < width {
        let k = off + i;
        let n = numbers::smaller(8 - k % 8, width - i);
        bit_parts::write_part(s, first + k / 8, k % 8, n, v >> (width - i - n));
        i += n;
    }
}

// The width bits from bit at on lie in n bytes, and make a number of 64 bits.
fn inside(n: usize, at: usize, width: usize) -> bool
    ensures { result ≡ within n at width }
{
    if 64 < width {
        return false;
    }
    let first = at / 8;
    if n < first {
        return false;
    }
    // the bytes that the field touches, against those from its first byte on
    if n - first < (at % 8 + width + 7) / 8 {
        return false;
    }
    true
}

// The field of width bits from bit at on; 0 where it does not lie in the bytes or has more than 64 bits.
pub fn get(s: &[u8], at: usize, width: usize) -> u64
    ensures { result ≡ get_of s.now at width }
{
    if inside(s.len(), at, width) {
        read_field(s, at, width)
    } else {
        0
    }
}

// That field becomes the low bits of v; where `get` finds none, nothing is written.
pub fn put(s: &mut [u8], at: usize, width: usize, v: u64)
    ensures { s.new ≡ put_of s.old at width v }
{
    if inside(s.len(), at, width) {
        write_field(s, at, width, v);
    }
}
