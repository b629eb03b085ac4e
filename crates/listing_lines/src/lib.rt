// The lines of the listing, stored in a buffer: a piece's line, for which room is required, since `listing_writer` has tested it
// for all lines at once, and the last line.
#![tactic(auto)]

ghost use Rattle.std.specs.Prelude.{◌≡◌, ◌+◌, ◌≤◌, length};
ghost use Rattle.decimals.specs.Put.{Put};
ghost use Rattle.listing.specs.Lines.{places_text, line_of, end_count, end_of};

use frame::Verdict;

// The repaired places, or `-`.
fn put_places(out: &mut [u8], at: usize, verdict: Verdict) -> usize
    requires { at + 3 ≤ length out.old }
    ensures { Put out.old at (places_text verdict) out.new result }
{
    if verdict.number == 0 {
        return decimals::put_decimal(out, at, verdict.repaired as u64);
    }
    decimals::put_byte(out, at, b'-')
}

// A piece's line from place at on; the place after it.
pub fn put_line(out: &mut [u8], at: usize, number: u64, verdict: Verdict) -> usize
    requires { at + 32 ≤ length out.old }
    ensures { Put out.old at (line_of number verdict) out.new result }
{
    let mut i = decimals::put_decimal(out, at, number);
    i = decimals::put_byte(out, i, b' ');
    i = decimals::put_decimal(out, i, verdict.number as u64);
    i = decimals::put_byte(out, i, b' ');
    i = put_places(out, i, verdict);
    decimals::put_byte(out, i, b'\n')
}

// The last line, at the start of the buffer; how many bytes it is. A buffer under 32 bytes is left as it is, and the answer is 0.
pub fn end(count: u32, out: &mut [u8]) -> usize
    ensures count { result ≡ end_count count (length out.old) }
    ensures text { out.new ≡ end_of count out.old }
{
    if out.len() < 32 {
        return 0;
    }
    let mut i = decimals::put_byte(out, 0, b'e');
    i = decimals::put_byte(out, i, b'n');
    i = decimals::put_byte(out, i, b'd');
    i = decimals::put_byte(out, i, b' ');
    i = decimals::put_decimal(out, i, count as u64);
    decimals::put_byte(out, i, b'\n')
}
