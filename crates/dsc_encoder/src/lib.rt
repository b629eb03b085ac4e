// The encoder: the parity of a message, by long division. Only `dsc_codec` calls it, always with a word of 187 bits, which it therefore requires.
#![tactic(auto)]

ghost use Rattle.std.specs.Prelude.{◌≡◌, ◌++◌, ◌+◌, ◌<◌, ◌≤◌, length, take, drop};
ghost use Rattle.gf2.specs.Polynomial.{zeros, add, remainder};
ghost use Rattle.dsc.specs.Code.{parity_of};
ghost use Rattle.dsc_bits.specs.Words.{at};

// g, added at the front of v.
fn add_front(g: &[bool], v: &mut [bool])
    requires { (length g.now ≡ 82) × (82 ≤ length v.old) }
    ensures { v.new ≡ add g.now v.old }
{
    for j in 0..82 {
        v[j] = v[j] != g[j];
    }
}

// Long division of 187 bits: what remains stands in the last 82.
fn divide(g: &[bool], w: &mut [bool])
    requires { (length g.now ≡ 82) × (length w.old ≡ 187) }
    ensures { drop 105 w.new ≡ remainder g.now 105 w.old }
{
    for k in 0..105 {
        if w[k] {
            let next = k + 1;
            add_front(g, &mut w[next..]);
        }
    }
}

// Bit n of the message, which is the first 105 bits of a word, times x^82.
fn shifted_bit(w: &[bool], n: usize) -> bool
    requires { length w.now ≡ 187 }
    ensures { result ≡ at (take 105 w.now ++ zeros 82) n }
{
    if n < 105 { w[n] } else { false }
}

// The message times x^82.
fn shifted(w: &[bool]) -> [bool; 187]
    requires { length w.now ≡ 187 }
    ensures { result ≡ take 105 w.now ++ zeros 82 }
{
    let mut d = dsc_bits::clear();
    for n in 0..187 {
        d[n] = shifted_bit(w, n);
    }
    d
}

// The last 82 of 187 bits.
fn last(w: &[bool]) -> [bool; 82]
    requires { length w.now ≡ 187 }
    ensures { result ≡ drop 105 w.now }
{
    let mut p = [false; 82];
    for n in 0..82 {
        p[n] = w[105 + n];
    }
    p
}

// The parity of the message of a word: what remains of it, times x^82, on division by the generator.
pub fn parity(w: &[bool]) -> [bool; 82]
    requires { length w.now ≡ 187 }
    ensures { result ≡ parity_of (take 105 w.now) }
{
    let g = dsc_tables::generator::low();
    let mut d = shifted(w);
    divide(&g, &mut d);
    last(&d)
}
