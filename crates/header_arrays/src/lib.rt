// Arrays of a header's values: zeros, runs of values copied, and a search. Nothing here is an entry point of the box. That a run finds room is required: the
// callers copy at fixed places, out of and into the values of a header, whose number they know.
#![tactic(auto)]

ghost use Rattle.std.specs.Prelude.{◌≡◌, ◌+◌, ◌*◌, ◌<◌, ◌≤◌, length, replicate};
ghost use Rattle.header.specs.Fields.{run, pairs};
ghost use Rattle.gf2.specs.Polynomial.{member};
ghost use Rattle.header_arrays.specs.Placed.{placed};

// N zeros.
pub fn zeros<const N: usize>() -> [u64; N]
    ensures { result ≡ replicate N 0 }
{
    [0; N]
}

// The values from number k on in steps of d. Here and below it is required that the values lie in the list: the numbers are those of the layout, written
// in the calling code, and its proof shows once that they do.
fn take_run(v: &[u64], k: usize, d: usize, out: &mut [u64])
    requires { (k + d * length out.old < length v.now + d) × (d < 65536) × (length v.now < 65536) }
    ensures { out.new ≡ run v.now k d (length out.old) }
{
    let mut at = k;
    for value in out.iter_mut() {
        *value = v[at];
        at += d;
    }
}

// N of them, as an array.
pub fn run<const N: usize>(v: &[u64], k: usize, d: usize) -> [u64; N]
    requires { (k + d * N < length v.now + d) × (d < 65536) × (length v.now < 65536) }
    ensures { result ≡ run v.now k d N }
{
    let mut out = zeros::<N>();
    take_run(v, k, d, &mut out);
    out
}

// The values of s stand in out from number k on.
#[tactic(auto, using(crate::proofs::Copies::placed_part))]
pub fn put_values(s: &[u64], out: &mut [u64], k: usize)
    requires { k + length s.now ≤ length out.old }
    ensures { out.new ≡ placed out.old k s.now }
{
    out[k..k + s.len()].copy_from_slice(s);
}

// Two lists of values in turn, from number k on.
pub fn put_pairs(s: &[u64], t: &[u64], out: &mut [u64], k: usize)
    requires { (length t.now ≡ length s.now) × (k + 2 * length s.now ≤ length out.old) }
    ensures { out.new ≡ placed out.old k (pairs s.now t.now) }
{
    for (i, x) in s.iter().enumerate() {
        out[k + 2 * i] = *x;
        out[k + 2 * i + 1] = t[i];
    }
}

// Whether x is among the values.
#[tactic(auto, using(crate::proofs::Copies::member_any))]
pub fn has(v: &[u64], x: u64) -> bool
    ensures { result ≡ member x v.now }
{
    v.contains(&x)
}
