// The details, B24 to B111, read and written by the table of the bodies: the first 88 bits of a slice. More bytes after them let eight be read at
// once up to the last field. That the 88 bits are there is required: the callers hand over the part from byte 3 on of 26 bytes.
#![tactic(auto)]

ghost use Rattle.std.specs.Prelude.{◌≡◌, ◌++◌, ◌≤◌, length, take, drop};
ghost use Rattle.bits.specs.Bits.{bits};
ghost use Rattle.bits.specs.Segment.{pack_segments};
ghost use Rattle.frame.specs.Body.{layout};
ghost use Rattle.frame.specs.Fields.{body_values};
ghost use Rattle.frame_details.specs.Details.{fields_read, ones_hold, ones_written, details_of};

use frame::{Body, FIELDS, Record};

// What the details hold: whether the fixed bits are as they should be, and the record.
#[derive(Clone, Copy)]
pub struct Details {
    pub holds: bool,
    pub contents: Record,
}

// The body's fields, each at its index, and 0 for every other.
fn read_fields(body: Body, details: &[u8]) -> [u64; FIELDS]
    requires { 11 ≤ length details.now }
    ensures { result ≡ fields_read body (bits details.now) }
{
    let span = frame_bodies::span_of(body);
    let from = span.from;
    let to = span.to;
    let before = span.before;
    let ws = frame_bodies::field_widths(body);
    let mut v = [0; FIELDS];
    bit_layouts::read_all(&details[before..], &ws[from..to], &mut v[from..to]);
    v
}

// The bits fixed at 1 are all 1.
fn ones_hold(body: Body, details: &[u8]) -> bool
    requires { 11 ≤ length details.now }
    ensures { result ≡ ones_hold body (bits details.now) }
{
    let span = frame_bodies::span_of(body);
    let before = 8 * span.before;
    let after = span.after;
    bit_layouts::all_ones(before, bit_fields::read_wide(details, 0, before))
        & bit_layouts::all_ones(after, bit_fields::read_wide(details, 88 - after, after))
}

// What the details of a body hold, with the fields that stand before them.
pub fn read_details(
    body: Body,
    reference: u64,
    pattern: u64,
    identification: u64,
    update: u64,
    details: &[u8],
) -> Details
    requires { 11 ≤ length details.now }
    ensures { result ≡ details_of body reference pattern identification update (take 88 (bits details.now)) }
{
    let holds = ones_hold(body, details);
    let mut v = read_fields(body, details);
    v[0] = reference;
    v[1] = pattern;
    v[2] = identification;
    v[3] = frame_bodies::own_update(body, update);
    Details {
        holds,
        contents: frame_fields::record_of(frame_fields::no_origin(), &v),
    }
}

// The bits fixed at 1, in the bytes from B24 on; all others stay.
fn write_ones(body: Body, part: &mut [u8])
    requires { 11 ≤ length part.old }
    ensures { part.new ≡ ones_written body part.old }
{
    let span = frame_bodies::span_of(body);
    let before = 8 * span.before;
    bit_fields::put(part, 0, before, numbers::pow2(before) - 1);
    let after = span.after;
    bit_fields::put(part, 88 - after, after, numbers::pow2(after) - 1);
}

// The details of a record of that body, in the bytes from B24 on; the bits after them stay.
pub fn write_details(body: Body, contents: Record, part: &mut [u8])
    requires { 11 ≤ length part.old }
    ensures { bits part.new ≡ pack_segments (layout body) (body_values body contents) ++ drop 88 (bits part.old) }
{
    write_ones(body, part);
    let span = frame_bodies::span_of(body);
    let from = span.from;
    let to = span.to;
    let before = span.before;
    let ws = frame_bodies::field_widths(body);
    let v = frame_fields::fields_of(contents);
    bit_layouts::write_all(&mut part[before..], &ws[from..to], &v[from..to]);
}
