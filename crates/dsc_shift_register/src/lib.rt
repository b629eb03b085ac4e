// The shift register of 82 cells that divides by the generator, whose 82 lower coefficients are g. Cell 0 is the top, x^81. `dsc_majority` and
// `dsc_register` call these functions, always with words of 187 bits, so sizes are required.
#![tactic(auto)]

ghost use Rattle.std.specs.Prelude.{◌≡◌, ◌+◌, ◌<◌, length};
ghost use Rattle.gf2.specs.Polynomial.{◌⊕◌, zeros, scale};
ghost use Rattle.gf2.specs.Register.{step};
ghost use Rattle.dsc.specs.Code.{generator_low, all_zero};
ghost use Rattle.dsc_bits.specs.Words.{at};
ghost use Rattle.dsc_shift_register.specs.Register.{loaded};

// A register of zeros. The literal stands in a function of its own so that no loop's proof carries its elements.
fn clear() -> [bool; 82]
    ensures { result ≡ zeros 82 }
{
    [false; 82]
}

// The cell below cell j; below the last one there is none, and 0 comes in.
fn below(s: &[bool], j: usize) -> bool
    requires { length s.now ≡ 82 }
    ensures { result ≡ at s.now (j + 1) }
{
    if j < 81 { s[j + 1] } else { false }
}

// What cell j holds after a shift: the cell below it, and the generator's coefficient added where a 1 leaves at the top.
fn next_cell(g: &[bool], s: &[bool], j: usize, leaves: bool) -> bool
    requires { (length g.now ≡ 82) × (length s.now ≡ 82) × (j < 82) }
    ensures { result ≡ at (scale leaves g.now) j ⊕ at s.now (j + 1) }
{
    let moved = below(s, j);
    if leaves { g[j] != moved } else { moved }
}

// One bit into the register: it is added to the bit that leaves at the top.
pub fn shift(g: &[bool], s: &mut [bool; 82], b: bool)
    requires { (length g.now ≡ 82) × (length s.old ≡ 82) }
    ensures { s.new ≡ step g.now s.old b }
{
    let leaves = s[0] != b;
    for j in 0..82 {
        s[j] = next_cell(g, s, j, leaves);
    }
}

// The state when the 187 bits of a word have gone in, first bit first.
pub fn load(g: &[bool], w: &[bool]) -> [bool; 82]
    requires { (g.now ≡ generator_low) × (length w.now ≡ 187) }
    ensures { result ≡ loaded w.now }
{
    let mut s = clear();
    for n in 0..187 {
        shift(g, &mut s, w[n]);
    }
    s
}

// Every cell holds 0.
fn is_zero(s: &[bool]) -> bool
    requires { length s.now ≡ 82 }
    ensures { result ≡ all_zero s.now }
{
    for j in 0..82 {
        if s[j] {
            return false;
        }
    }
    true
}

// Nothing remains in the register when the word has gone in: then it is a code word, and only then.
pub fn is_code_word(g: &[bool], w: &[bool]) -> bool
    requires { (g.now ≡ generator_low) × (length w.now ≡ 187) }
    ensures { result ≡ all_zero (loaded w.now) }
{
    let s = load(g, w);
    is_zero(&s)
}
