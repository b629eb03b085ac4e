// Words of 187 bits, a bool for each bit: how many places two of them differ in, and the numbers that stand in them. Only the crates of the code call these
// functions, with words of that size, so sizes are required and nothing is tested.
#![tactic(auto)]

ghost use Rattle.std.specs.Prelude.{◌≡◌, ◌+◌, ◌≤◌, length, take, drop};
ghost use Rattle.bits.specs.Bits.{value, digit};
ghost use Rattle.gf2.specs.Polynomial.{zeros};
ghost use Rattle.dsc.specs.Code.{dist};

// 187 zeros, to be filled. The literal stands in a function of its own so that no loop's proof carries its elements.
pub fn clear() -> [bool; 187]
    ensures { result ≡ zeros 187 }
{
    [false; 187]
}

pub fn one(b: bool) -> u8
    ensures { (result ≡ digit b) × (result ≤ 1) }
{
    if b { 1 } else { 0 }
}

// In how many places u and w differ.
pub fn distance(u: &[bool], w: &[bool]) -> u8
    requires { (length u.now ≡ 187) × (length w.now ≡ 187) }
    ensures { result ≡ dist u.now w.now }
{
    let mut n = 0;
    for i in 0..187 {
        n += one(u[i] != w[i]);
    }
    n
}

// The n bits from bit k on, as a number.
pub fn number(b: &[bool], k: usize, n: usize) -> u64
    requires { (k + n ≤ length b.now) × (n ≤ 64) }
    ensures { result ≡ value (take n (drop k b.now)) }
{
    let mut v = 0;
    for i in 0..n {
        v = v * 2 + one(b[k + i]) as u64;
    }
    v
}
