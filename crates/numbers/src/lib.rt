// Numbers: powers of 2, low bits, the smaller of two.
#![tactic(auto)]

ghost use Rattle.std.specs.Prelude.{◌≡◌, ◌%◌, ◌^◌, ◌<◌, min};

// 2 to the power k. It requires k below 64, since no larger power is a number of 64 bits.
pub fn pow2(k: usize) -> u64
    requires { k < 64 }
    ensures { result ≡ 2 ^ k }
{
    1 << k
}

// The n low bits of v. It requires n below 64, as `pow2` does.
pub fn low_bits(v: u64, n: usize) -> u64
    requires { n < 64 }
    ensures { result ≡ v % 2 ^ n }
{
    v & (pow2(n) - 1)
}

// The smaller of two numbers.
pub fn smaller(a: usize, b: usize) -> usize
    ensures { result ≡ min a b }
{
    if a < b {
        return a;
    }
    b
}
