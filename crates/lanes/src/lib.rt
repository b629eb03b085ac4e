// Words of 64 bits as 64 lanes side by side: adders that add up a bit of each lane at once.
#![tactic(auto)]

ghost use Rattle.std.specs.Prelude.{◌≡◌, [], ◌∷◌, ℕ, ◌+◌, ◌*◌, leb};
ghost use Rattle.bits.specs.Bits.{digit};
ghost use Rattle.lanes.specs.Lane.{lane, set_in};

// What an adder gives in each lane: the lowest bit of the sum, and the carry.
#[derive(Clone, Copy)]
pub struct Added {
    pub sum: u64,
    pub carry: u64,
}

pub fn half_adder(x: u64, y: u64) -> Added
    ensures { (i : ℕ) → digit (lane result.sum i) + 2 * digit (lane result.carry i) ≡ digit (lane x i) + digit (lane y i) }
{
    Added {
        sum: x ^ y,
        carry: x & y,
    }
}

pub fn full_adder(x: u64, y: u64, z: u64) -> Added
    ensures { (i : ℕ) → digit (lane result.sum i) + 2 * digit (lane result.carry i) ≡ digit (lane x i) + digit (lane y i) + digit (lane z i) }
{
    let half = x ^ y;
    Added {
        sum: half ^ z,
        carry: (x & y) | (half & z),
    }
}

// The lanes in which nine or more of 17 words are set, by carry-save adders: eight add up the words, and each further row adds up the carries of the row
// before, so that a lane's number is ones + 2 twos + 4 fours + 8 eights.
pub fn at_least_nine(
    x0: u64,
    x1: u64,
    x2: u64,
    x3: u64,
    x4: u64,
    x5: u64,
    x6: u64,
    x7: u64,
    x8: u64,
    x9: u64,
    x10: u64,
    x11: u64,
    x12: u64,
    x13: u64,
    x14: u64,
    x15: u64,
    x16: u64,
) -> u64
    ensures { (i : ℕ) → lane result i ≡ leb 9 (set_in i (x0 ∷ x1 ∷ x2 ∷ x3 ∷ x4 ∷ x5 ∷ x6 ∷ x7 ∷ x8 ∷ x9 ∷ x10 ∷ x11 ∷ x12 ∷ x13 ∷ x14 ∷ x15 ∷ x16 ∷ [])) }
{
    let a = full_adder(x0, x1, x2);
    let b = full_adder(a.sum, x3, x4);
    let c = full_adder(b.sum, x5, x6);
    let d = full_adder(c.sum, x7, x8);
    let e = full_adder(d.sum, x9, x10);
    let f = full_adder(e.sum, x11, x12);
    let g = full_adder(f.sum, x13, x14);
    let ones = full_adder(g.sum, x15, x16);
    let h = full_adder(a.carry, b.carry, c.carry);
    let k = full_adder(h.sum, d.carry, e.carry);
    let l = full_adder(k.sum, f.carry, g.carry);
    let twos = half_adder(l.sum, ones.carry);
    let m = full_adder(h.carry, k.carry, l.carry);
    let fours = half_adder(m.sum, twos.carry);
    let eights = half_adder(m.carry, fours.carry);
    eights.carry | (eights.sum & ((ones.sum | twos.sum) | fours.sum))
}
