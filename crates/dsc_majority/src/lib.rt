// The check sums of the register's state, and the majority of the 17 through the decided place. They are called always with
// the check table and a state of 82 cells, which they therefore require; `dsc_register` calls the last.
#![tactic(auto)]

ghost use Rattle.std.specs.Prelude.{◌≡◌, ◌+◌, ◌-◌, ◌%◌, ◌<◌, leb, length, get_or};
ghost use Rattle.gf2.specs.Polynomial.{◌⊕◌};
ghost use Rattle.dsc.specs.Code.{generator_low};
ghost use Rattle.dsc.specs.CheckTable.{CheckTable, differences, coefficient, syndrome, failures};
ghost use Rattle.dsc_shift_register.specs.Register.{decided_place, decided, register_word};

// When the whole word has gone into the register, the state is that of the word times x^82, so its first bit, x^186, stands here.
const DECIDED_PLACE: usize = 268;

// Entry i of check row q.
fn place(t: &[u16], q: usize, i: usize) -> usize
    requires { CheckTable t.now × (q < 273) × (i < 17) }
    ensures { result ≡ (q + 273 - get_or differences i 0) % 273 }
{
    t[q * 17 + i] as usize
}

// The i-th check row through place p: row 0 holds the places -d.
fn row_through(t: &[u16], p: usize, i: usize) -> usize
    requires { CheckTable t.now × (p < 273) × (i < 17) }
    ensures { (result ≡ (p + get_or differences i 0) % 273) × (result < 273) }
{
    let q = place(t, 0, i);
    if q <= p { p - q } else { p + 273 - q }
}

// The state's coefficient of x^p: the register has no cell for the places past 81.
fn cell(s: &[bool], p: usize) -> bool
    requires { length s.now ≡ 82 }
    ensures { result ≡ coefficient s.now p }
{
    if p < 82 { s[81 - p] } else { false }
}

// The check sum on row q.
fn check_sum(t: &[u16], s: &[bool], q: usize) -> bool
    requires { CheckTable t.now × (length s.now ≡ 82) × (q < 273) }
    ensures { result ≡ syndrome s.now q }
{
    let mut sum = false;
    for i in 0..17 {
        sum = sum != cell(s, place(t, q, i));
    }
    sum
}

// How many of the 17 check sums through the decided place are odd.
fn failure_count(t: &[u16], s: &[bool]) -> u8
    requires { CheckTable t.now × (length s.now ≡ 82) }
    ensures { result ≡ failures s.now decided_place }
{
    let mut n = 0;
    for i in 0..17 {
        n += dsc_bits::one(check_sum(t, s, row_through(t, DECIDED_PLACE, i)));
    }
    n
}

// The bit b of the decided place, flipped where the majority is odd.
fn decide(t: &[u16], s: &[bool], b: bool) -> bool
    requires { CheckTable t.now × (length s.now ≡ 82) }
    ensures { result ≡ b ⊕ leb 9 (failures s.now decided_place) }
{
    b != (9 <= failure_count(t, s))
}

// The bits of r, decided one after the other. After each the register turns, with no bit going in: that brings the next bit to the decided place.
fn decide_bits(g: &[bool], t: &[u16], s: &mut [bool; 82], r: &[bool]) -> [bool; 187]
    requires { (g.now ≡ generator_low) × CheckTable t.now × (length s.old ≡ 82) × (length r.now ≡ 187) }
    ensures { result ≡ decided s.old r.now }
{
    let mut w = dsc_bits::clear();
    for n in 0..187 {
        w[n] = decide(t, s, r[n]);
        dsc_shift_register::shift(g, s, false);
    }
    w
}

// The word that the majority gives for the received bits r.
pub fn decide_word(g: &[bool], t: &[u16], r: &[bool]) -> [bool; 187]
    requires { (g.now ≡ generator_low) × CheckTable t.now × (length r.now ≡ 187) }
    ensures { result ≡ register_word r.now }
{
    let mut s = dsc_shift_register::load(g, r);
    decide_bits(g, t, &mut s, r)
}
