// The places on which the majority of the check rows fail, 64 places at a time.
#![tactic(auto)]

ghost use Rattle.std.specs.Prelude.{◌≡◌, ◌≤◌, [], ◌∷◌, MatchOption};
ghost use Rattle.dsc.specs.Code.{weight};
ghost use Rattle.dsc_words.specs.Words.{held};
ghost use Rattle.dsc_errors.specs.Errors.{Wrapped, MovedMajority, ErrorsOf, ManyErrors};

use dsc_sums::{MiddleSums, OuterSums};
use dsc_words::Word;

// In how many places the code is repaired.
const MOST: u32 = 8;

// The places in error as a word, and how many they are: at most eight.
#[derive(Clone, Copy)]
pub struct ErrorWord {
    pub word: Word,
    pub places: u8,
    pub ghost counted: { places ≡ weight (held word) },
    pub ghost few: { places ≤ 8 },
}

// 64 places at once: lane i says that nine or more of the bits at the differences, moved on by i, are set. The shifts are the rows through place 0, which
// the check table gives (`shifts` in `dsc_sums/specs/Promises`).
fn majority(a: u64, b: u64, c: u64, d: u64, e: u64) -> u64
    ensures { MovedMajority (a ∷ b ∷ c ∷ d ∷ e ∷ []) result }
{
    lanes::at_least_nine(
        a,
        (a >> 18) | (b << 46),
        (a >> 24) | (b << 40),
        (a >> 46) | (b << 18),
        (a >> 50) | (b << 14),
        (b >> 3) | (c << 61),
        (b >> 39) | (c << 25),
        (b >> 48) | (c << 16),
        (b >> 51) | (c << 13),
        (b >> 62) | (c << 2),
        c,
        (c >> 31) | (d << 33),
        (c >> 38) | (d << 26),
        (c >> 39) | (d << 25),
        (c >> 58) | (d << 6),
        (d >> 4) | (e << 60),
        (d >> 9) | (e << 55),
    )
}

// The sums on all rows, and then on from row 0 again: word k + 5 is bits 47 to 110 of words k and k + 1, since 64 times 5 is 273 + 47.
fn wrap(x: u64, y: u64) -> u64
    ensures { Wrapped x y result }
{
    (x >> 47) | (y << 17)
}

// The error word: the places of which nine or more of the 17 rows fail, or none where they are more than eight. The weight is tested after each majority: few
// errors are the rule, and in different branches the compiler does not mix the adders of two majorities.
pub fn errors(middle: MiddleSums, outer: OuterSums) -> Option<ErrorWord>
    ensures { MatchOption result
        (ManyErrors outer.rows0 outer.rows64 middle.rows128 middle.rows192 outer.rows256)
        (λ errors. ErrorsOf outer.rows0 outer.rows64 middle.rows128 middle.rows192 outer.rows256 (held errors.word)) }
{
    let fourth = wrap(outer.rows256 << 47, outer.rows0);
    let fifth = wrap(outer.rows0, outer.rows64);
    let sixth = wrap(outer.rows64, middle.rows128);
    let low = majority(
        outer.rows0,
        outer.rows64,
        middle.rows128,
        middle.rows192,
        fourth,
    );
    let first = low.count_ones();
    if MOST < first {
        return None;
    }
    let next = majority(outer.rows64, middle.rows128, middle.rows192, fourth, fifth);
    let second = first + next.count_ones();
    if MOST < second {
        return None;
    }
    let last = majority(middle.rows128, middle.rows192, fourth, fifth, sixth);
    let high = (last << 5) >> 5;
    let places = second + high.count_ones();
    if MOST < places {
        return None;
    }
    Some(ErrorWord {
        word: Word {
            low,
            middle: next,
            high,
        },
        places: places as u8,
    })
}
