// Rows of segments, fields and fixed bits end to end, by a table of them.
// The table is the calling program's own, known when it is written: that it finds room is for its proof to show once.
#![tactic(auto)]

ghost use Rattle.std.specs.Prelude.{◌≡◌, ◌++◌, ◌+◌, ◌<◌, ◌≤◌, length, drop};
ghost use Rattle.bits.specs.Bits.{bits};
ghost use Rattle.bits.specs.Layout.{sum, Layout};
ghost use Rattle.bits.specs.Segment.{width, widths, free_widths, pack_segments, unpack_segments, fixed_bits_hold};
ghost use Rattle.segments.specs.Step.{IfField, stored, next_place, segment_value};

use bits::Segment;

// A segment that holds v: a field's value goes to place i, and the place after it is answered; a fixed segment leaves both as they are.
fn keep(segment: Segment, v: u64, out: &mut [u64], i: usize) -> usize
    requires { (i ≤ length out.old) × IfField segment (i < length out.old) }
    ensures place { result ≡ next_place segment i }
    ensures stored { out.new ≡ stored segment v i out.old }
{
    match segment {
        Segment::Field(_) => {
            out[i] = v;
            i + 1
        }
        _ => i,
    }
}

// The values of the fields; the answer is whether the fixed bits are as they should be.
pub fn read_fields(s: &[u8], layout: &[Segment], out: &mut [u64]) -> bool
    requires { Layout (widths layout.now) (length s.now) × (length out.old ≡ length (free_widths layout.now)) }
    ensures fixed { result ≡ fixed_bits_hold layout.now (bits s.now) }
    ensures values { out.new ≡ unpack_segments layout.now (bits s.now) }
{
    let mut at = 0;
    let mut i = 0;
    let mut fixed = true;
    for segment in layout {
        let width = segment.width();
        let v = bit_fields::get(s, at, width);
        i = keep(*segment, v, out, i);
        fixed &= bit_layouts::segment_holds(bit_layouts::kind_of(*segment), width, v);
        at += width;
    }
    fixed
}

// What a segment holds: of a field the value at place i, otherwise its fixed bits.
fn segment_value(segment: Segment, vs: &[u64], i: usize) -> u64
    requires { (width segment < 64) × IfField segment (i < length vs.now) }
    ensures { result ≡ segment_value segment i vs.now }
{
    match segment {
        Segment::Field(_) => vs[i],
        Segment::Ones(width) => numbers::pow2(usize::from(width)) - 1,
        Segment::Zeros(_) => 0,
    }
}

fn next_place(segment: Segment, i: usize) -> usize
    requires { i < 65536 }
    ensures { result ≡ next_place segment i }
{
    match segment {
        Segment::Field(_) => i + 1,
        _ => i,
    }
}

// The fields with these values, and the fixed bits among them, from the first bit on; the bits after them stay. A value too wide for its field loses its high
// bits: `bit_layouts::fits_all` tells beforehand.
pub fn write_fields(buf: &mut [u8], layout: &[Segment], vs: &[u64])
    requires { Layout (widths layout.now) (length buf.old) × (length vs.now ≡ length (free_widths layout.now)) × (length vs.now < 65536) }
    ensures { bits buf.new ≡ pack_segments layout.now vs.now ++ drop (sum (widths layout.now)) (bits buf.old) }
{
    let mut at = 0;
    let mut i = 0;
    for (j, segment) in layout.iter().enumerate() {
        // a fixed segment has no value
        prove!(i <= j);
        let width = segment.width();
        bit_fields::put(buf, at, width, segment_value(*segment, vs, i));
        i = next_place(*segment, i);
        at += width;
    }
}
