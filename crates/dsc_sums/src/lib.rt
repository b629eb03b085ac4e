// The sums of a word on the check rows, 64 rows at a time.
#![tactic(auto)]

ghost use Rattle.dsc_words.specs.Words.{held};
ghost use Rattle.dsc_sums.specs.Sums.{Sums};

use dsc_words::Word;

mod product;

// The sums on rows 128 to 255. No place past 272 comes round to them, and a code word is known by them: any 82 neighbouring rows decide.
#[derive(Clone, Copy)]
pub struct MiddleSums {
    pub rows128: u64,
    pub rows192: u64,
}

// The sums on the other rows: 0 to 63, 64 to 127 and 256 to 272. Lanes 17 to 63 of the last mean nothing.
#[derive(Clone, Copy)]
pub struct OuterSums {
    pub rows0: u64,
    pub rows64: u64,
    pub rows256: u64,
}

pub fn middle_sums(word: Word) -> MiddleSums
    ensures rows128 { Sums (held word) 128 64 result.rows128 }
    ensures rows192 { Sums (held word) 192 64 result.rows192 }
{
    MiddleSums {
        rows128: product::limb2(word),
        rows192: product::limb3(word),
    }
}

// The coefficients from x^273 on come round to x^0.
pub fn outer_sums(word: Word) -> OuterSums
    ensures rows0 { Sums (held word) 0 64 result.rows0 }
    ensures rows64 { Sums (held word) 64 64 result.rows64 }
    ensures rows256 { Sums (held word) 256 17 result.rows256 }
{
    let fourth = product::limb4(word);
    let fifth = product::limb5(word);
    let sixth = product::limb6(word);
    OuterSums {
        rows0: product::limb0(word) ^ ((fourth >> 17) | (fifth << 47)),
        rows64: product::limb1(word) ^ ((fifth >> 17) | (sixth << 47)),
        rows256: fourth,
    }
}
