// What test cases are made of: bytes as numbers, and doubles by their bits.
#![tactic(auto)]

ghost use Rattle.std.specs.Prelude.{◌+◌, ◌/◌, ◌≤◌, min, ◌≡◌, ◌++◌, length, take, drop, replicate};
ghost use Rattle.std.specs.Float.{nan, binary64};
ghost use Rattle.std.specs.Float.Ieee.{of_bits, to_bits};
ghost use Rattle.bits.specs.Bits.{value, bits};
ghost use Rattle.test_values.specs.Numbers.{numbers_of};

// One byte in every place.
pub fn fill(s: &mut [u8], byte: u8)
    ensures { s.new ≡ replicate (length s.old) byte }
{
    for i in 0..s.len() {
        s[i] = byte;
    }
}

// Zeros; their number is said too, since a part of the array needs it.
pub fn no_values() -> [u64; 508]
    ensures value { 508 ≡ length result }
    ensures value_2 { result ≡ replicate 508 0 }
{
    [0; 508]
}

// The number that the eight bytes from place at on make up.
fn number_at(s: &[u8], at: usize) -> u64
    requires { at + 8 ≤ length s.now }
    ensures { result ≡ value (bits (take 8 (drop at s.now))) }
{
    bit_fields::get(&s[at..at + 8], 0, 64)
}

// The numbers that bytes make up, eight each, as many as there are and have room; and how many that is.
pub fn values(s: &[u8], out: &mut [u64]) -> usize
    ensures upper_bound { result ≤ length out.new }
    ensures value { result ≡ min (length s.now / 8) (length out.old) }
    ensures out_after { out.new ≡ numbers_of result s.now ++ drop result out.old }
{
    let n = numbers::smaller(s.len() / 8, out.len());
    for i in 0..n {
        out[i] = number_at(s, 8 * i);
    }
    n
}

// The double with these bits. The language has one NaN and not its bits: which of three divisions or differences makes it goes by the sign and the highest bit of the fraction.
pub fn double(bits: u64) -> f64
    ensures { result ≡ of_bits binary64 bits }
{
    if bits % 0x8000000000000000 / 0x10000000000000 == 2047 {
        if bits % 0x10000000000000 != 0 {
            return not_a_number(bits);
        }
        return f64::from_bits(bits);
    }
    f64::from_bits(bits)
}

fn not_a_number(bits: u64) -> f64
    ensures { result ≡ nan }
{
    let infinite = 1.0 / 0.0;
    if 0x8000000000000000 <= bits {
        return -(infinite - infinite);
    }
    if 0x7ff8000000000000 <= bits {
        return infinite - infinite;
    }
    0.0 / 0.0
}

// A double's bits, those of one NaN for any.
pub fn bits_of(x: f64) -> u64
    ensures { result ≡ to_bits binary64 x }
{
    if x == x {
        return f64::to_bits(x);
    }
    0x7ff8000000000000
}
