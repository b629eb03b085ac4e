// Bits in a byte, most significant first, and bytes as numbers: what fields are read and written by.
#![tactic(auto)]

ghost use Rattle.std.specs.Prelude.{◌≡◌, false, ◌+◌, ◌*◌, ◌<◌, ◌≤◌, length, get_or};
ghost use Rattle.bits.specs.Bits.{digit, bits};
ghost use Rattle.bits.specs.Field.{field_at, put_bits};

// Bit r of byte q, 0 or 1. It requires that there is such a bit, so that a loop over bits pays for no test.
pub fn bit(s: &[u8], q: usize, r: usize) -> u64
    requires { (q < length s.now) × (r < 8) }
    ensures { result ≡ digit (get_or (bits s.now) (8 * q + r) false) }
{
    (s[q] as u64 >> (7 - r)) & 1
}

// The n bits from bit r of byte q on, as a number: the part of a field that lies in that byte.
// It requires that they are there, so that a loop over the parts of a field pays for no test.
pub fn read_part(s: &[u8], q: usize, r: usize, n: usize) -> u64
    requires { (q < length s.now) × (r + n ≤ 8) }
    ensures { result ≡ field_at s.now (8 * q + r) n }
{
    numbers::low_bits(s[q] as u64 >> (8 - r - n), n)
}

// The n bits from bit r of byte q on become the low bits of v. It requires what `read_part` does, for the same reason.
pub fn write_part(s: &mut [u8], q: usize, r: usize, n: usize, v: u64)
    requires { (q < length s.old) × (r + n ≤ 8) }
    ensures { bits s.new ≡ put_bits s.old (8 * q + r) n v }
{
    let old = read_part(s, q, r, n);
    let new = numbers::low_bits(v, n);
    let weight = numbers::pow2(8 - r - n);
    s[q] = (s[q] as u64 - old * weight + new * weight) as u8;
}

fn wide(x: u8) -> u64
    ensures { result ≡ x }
{
    x as u64
}

// Eight bytes from byte `at` on as a number, the first byte highest. In this shape the compiler makes one load of them.
// It requires that they are there, so that code which has tested a length pays for no other test.
pub fn eight(s: &[u8], at: usize) -> u64
    requires { at + 8 ≤ length s.now }
    ensures { result ≡ field_at s.now (8 * at) 64 }
{
    (wide(s[at]) << 56)
        | (wide(s[at + 1]) << 48)
        | (wide(s[at + 2]) << 40)
        | (wide(s[at + 3]) << 32)
        | (wide(s[at + 4]) << 24)
        | (wide(s[at + 5]) << 16)
        | (wide(s[at + 6]) << 8)
        | wide(s[at + 7])
}
