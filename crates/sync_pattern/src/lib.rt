// The synchronising bits of a frame, B1 to B16: the two patterns, and which of them bits fit.
#![tactic(auto)]

ghost use Rattle.std.specs.Prelude.{◌≡◌};
ghost use Rattle.bits.specs.Bits.{bits_of};
ghost use Rattle.sync_pattern.specs.Pattern.{pattern_word, differing_from, sync_of};

// The pattern that synchronising bits fit, 0 or 1, and in how many bits they differ from it.
#[derive(Clone, Copy)]
pub struct Fit {
    pub pattern: u64,
    pub differing: u8,
}

// In how many bits the synchronising bits may differ from the pattern that they fit.
const LIMIT: u8 = 3;

// The bits of a pattern.
pub fn pattern_word(pattern: u64) -> u64
    ensures { result ≡ pattern_word pattern }
{
    if pattern == 0 {
        return 0x35EE;
    }
    0xCA11
}

// In how many bits the low 16 bits of a number differ from a pattern.
#[tactic(auto, using(crate::proofs::Patterns::counted))]
fn differing_from(pattern: u64, sync: u64) -> u8
    ensures { result ≡ differing_from pattern (bits_of 16 sync) }
{
    ((sync ^ pattern_word(pattern)) % 65536).count_ones() as u8
}

// Which pattern the low 16 bits of a number fit, if they fit one.
#[tactic(auto, using(crate::proofs::Patterns::ways_out))]
pub fn sync_of(sync: u64) -> Option<Fit>
    ensures { result ≡ sync_of (bits_of 16 sync) }
{
    let from_0 = differing_from(0, sync);
    if from_0 <= LIMIT {
        return Some(Fit {
            pattern: 0,
            differing: from_0,
        });
    }
    let from_1 = differing_from(1, sync);
    if from_1 <= LIMIT {
        return Some(Fit {
            pattern: 1,
            differing: from_1,
        });
    }
    None
}
