// Fields end to end, by a table of their widths: read, written, and tested.
#![tactic(auto)]

ghost use Rattle.std.specs.Prelude.{◌≡◌, ◌++◌, ◌-◌, ◌^◌, eqb, ltb, length, drop};
ghost use Rattle.bits.specs.Bits.{bits};
ghost use Rattle.bits.specs.Layout.{pack, unpack, sum, Layout, fitb};
ghost use Rattle.bits.specs.Segment.{width, holds};
ghost use Rattle.bit_layouts.specs.Kind.{segment_of};

use bits::Segment;

// What so many bits are: a field, or fixed at 1, or fixed at 0.
#[derive(Clone, Copy)]
pub enum Kind {
    Field,
    FixedOnes,
    FixedZeros,
}

// The kind of a layout's segment.
pub fn kind_of(segment: Segment) -> Kind
    ensures { segment_of result (width segment) ≡ segment }
{
    match segment {
        Segment::Field(_) => Kind::Field,
        Segment::Ones(_) => Kind::FixedOnes,
        Segment::Zeros(_) => Kind::FixedZeros,
    }
}

// The values of the fields of the given widths, end to end from the first bit on.
// The widths are a table of the calling program, known when it is written: that they find room is for its
// proof to show once, and no answer at run time would help a program whose table is wrong.
pub fn read_all(s: &[u8], ws: &[usize], out: &mut [u64])
    requires { Layout ws.now (length s.now) × (length out.old ≡ length ws.now) }
    ensures { out.new ≡ unpack ws.now (bits s.now) }
{
    let mut at = 0;
    for (j, width) in ws.iter().enumerate() {
        out[j] = bit_fields::read_wide(s, at, *width);
        at += *width;
    }
}

// The values, in fields of the given widths, end to end from the first bit on; the bits after them stay.
// It requires what `read_all` does, for the same reason. A value too wide for its field loses its high bits:
// `fits_all` tells beforehand.
pub fn write_all(buf: &mut [u8], ws: &[usize], vs: &[u64])
    requires { Layout ws.now (length buf.old) × (length vs.now ≡ length ws.now) }
    ensures { bits buf.new ≡ pack ws.now vs.now ++ drop (sum ws.now) (bits buf.old) }
{
    let mut at = 0;
    for (width, value) in ws.iter().zip(vs) {
        bit_fields::write_field(buf, at, *width, *value);
        at += *width;
    }
}

// v has at most w bits.
fn fits(w: usize, v: u64) -> bool
    ensures { result ≡ ltb v (2 ^ w) }
{
    if 64 <= w {
        return true;
    }
    v < numbers::pow2(w)
}

// Whether there is a value for each field and each fits its field.
pub fn fits_all(ws: &[usize], vs: &[u64]) -> bool
    ensures { result ≡ fitb ws.now vs.now }
{
    vs.len() == ws.len() && ws.iter().zip(vs).all(|(width, value)| fits(*width, *value))
}

// v is w bits that are all 1.
pub fn all_ones(w: usize, v: u64) -> bool
    ensures { result ≡ eqb v (2 ^ w - 1) }
{
    if 64 < w {
        return false;
    }
    if w == 64 {
        return v == 18446744073709551615;
    }
    v == numbers::pow2(w) - 1
}

// w bits of the kind hold v, if they are fixed: of any width, where a layout's segment has one below 256.
pub fn segment_holds(kind: Kind, w: usize, v: u64) -> bool
    ensures { result ≡ holds (segment_of kind w) v }
{
    match kind {
        Kind::Field => true,
        Kind::FixedOnes => all_ones(w, v),
        Kind::FixedZeros => v == 0,
    }
}
