// Numbers as text: decimal digits, and single bytes, stored in a buffer, and read. Where text is stored, sizes are required: the callers have room for it.
#![tactic(auto)]

ghost use Rattle.std.specs.Prelude.{◌≡◌, [], ◌∷◌, ◌+◌, ◌-◌, ◌*◌, ◌^◌, ◌≤◌, ◌<◌, length, IsTrue, SomeIff};
ghost use Rattle.decimals.specs.Decimal.{decimal};
ghost use Rattle.decimals.specs.Put.{Put};
ghost use Rattle.decimals.specs.Reading.{is_digit, digits_from, decimal_at};

// A number that a text begins with, and how many bytes of the text it takes.
#[derive(Clone, Copy)]
pub struct Number {
    pub value: u64,
    pub bytes: usize,
}

// How many decimal digits n has.
pub fn digit_count(n: u64) -> usize
    ensures { result ≡ length (decimal n) }
{
    match n.checked_ilog10() {
        Some(power) => power as usize + 1,
        None => 1,
    }
}

// One byte at a place; the place after it.
pub fn put_byte(out: &mut [u8], at: usize, byte: u8) -> usize
    requires { at < length out.old }
    ensures { Put out.old at (byte ∷ []) out.new result }
{
    out[at] = byte;
    at + 1
}

// The digits of n from place at on; the place after them.
pub fn put_decimal(out: &mut [u8], at: usize, n: u64) -> usize
    requires { at + length (decimal n) ≤ length out.old }
    ensures { Put out.old at (decimal n) out.new result }
{
    let end = at + digit_count(n);
    let mut rest = n;
    for place in (at..end).rev() {
        out[place] = b'0' + (rest % 10) as u8;
        rest /= 10;
    }
    end
}

// The value of a decimal digit.
fn digit_value(byte: u8) -> Option<u64>
    ensures { SomeIff result (IsTrue (is_digit byte)) (byte - 48) }
{
    match byte {
        b'0'..=b'9' => Some(u64::from(byte - b'0')),
        _ => None,
    }
}

// The number with one more digit behind it, if that has at most 64 bits.
fn with_digit(value: u64, digit: u64) -> Option<u64>
    ensures { SomeIff result (10 * value + digit < 2 ^ 64) (10 * value + digit) }
{
    value.checked_mul(10)?.checked_add(digit)
}

// The number that a first digit, of this value, and the digits behind it make up.
fn read_digits(first: u64, behind: &[u8]) -> Option<Number>
    ensures { result ≡ digits_from first 1 behind.now }
{
    let mut value = first;
    let mut bytes = 1;
    for &byte in behind {
        let Some(digit) = digit_value(byte) else {
            break;
        };
        value = with_digit(value, digit)?;
        bytes += 1;
    }
    Some(Number { value, bytes })
}

// The plain decimal number that the text begins with, and how many digits it has.
#[tactic(auto, using(crate::proofs::Readings::by_first_byte))]
pub fn read_decimal(text: &[u8]) -> Option<Number>
    ensures { result ≡ decimal_at text.now }
{
    let (&first, behind) = text.split_first()?;
    if first == b'0' {
        return Some(Number { value: 0, bytes: 1 });
    }
    read_digits(digit_value(first)?, behind)
}
