// The product of a word and the sum of x^d over the differences d, in seven limbs of 64 coefficients: taken modulo x^273 - 1 it is the sums on the check
// rows. In limb k the word is moved on by d for each d, and what lies outside the limb is left out; the shifts are what the check table's places make of them
// (`shifts` in specs/Promises).
ghost use Rattle.dsc_words.specs.Words.{held};
ghost use Rattle.dsc_sums.specs.Sums.{Limb};

use dsc_words::Word;

pub fn limb0(word: Word) -> u64
    ensures { Limb (held word) 0 result }
{
    let low = word.low;
    low ^ (low << 18) ^ (low << 24) ^ (low << 46) ^ (low << 50)
}

pub fn limb1(word: Word) -> u64
    ensures { Limb (held word) 1 result }
{
    let Word { low, middle, .. } = word;
    middle
        ^ ((low >> 46) | (middle << 18))
        ^ ((low >> 40) | (middle << 24))
        ^ ((low >> 18) | (middle << 46))
        ^ ((low >> 14) | (middle << 50))
        ^ (low << 3)
        ^ (low << 39)
        ^ (low << 48)
        ^ (low << 51)
        ^ (low << 62)
}

pub fn limb2(word: Word) -> u64
    ensures { Limb (held word) 2 result }
{
    let Word { low, middle, high } = word;
    high ^ ((middle >> 46) | (high << 18))
        ^ ((middle >> 40) | (high << 24))
        ^ ((middle >> 18) | (high << 46))
        ^ ((middle >> 14) | (high << 50))
        ^ ((low >> 61) | (middle << 3))
        ^ ((low >> 25) | (middle << 39))
        ^ ((low >> 16) | (middle << 48))
        ^ ((low >> 13) | (middle << 51))
        ^ ((low >> 2) | (middle << 62))
        ^ low
        ^ (low << 31)
        ^ (low << 38)
        ^ (low << 39)
        ^ (low << 58)
}

pub fn limb3(word: Word) -> u64
    ensures { Limb (held word) 3 result }
{
    let Word { low, middle, high } = word;
    (high >> 46)
        ^ (high >> 40)
        ^ (high >> 18)
        ^ (high >> 14)
        ^ ((middle >> 61) | (high << 3))
        ^ ((middle >> 25) | (high << 39))
        ^ ((middle >> 16) | (high << 48))
        ^ ((middle >> 13) | (high << 51))
        ^ ((middle >> 2) | (high << 62))
        ^ middle
        ^ ((low >> 33) | (middle << 31))
        ^ ((low >> 26) | (middle << 38))
        ^ ((low >> 25) | (middle << 39))
        ^ ((low >> 6) | (middle << 58))
        ^ (low << 4)
        ^ (low << 9)
}

pub fn limb4(word: Word) -> u64
    ensures { Limb (held word) 4 result }
{
    let Word { low, middle, high } = word;
    (high >> 25)
        ^ (high >> 16)
        ^ (high >> 13)
        ^ (high >> 2)
        ^ high
        ^ ((middle >> 33) | (high << 31))
        ^ ((middle >> 26) | (high << 38))
        ^ ((middle >> 25) | (high << 39))
        ^ ((middle >> 6) | (high << 58))
        ^ ((low >> 60) | (middle << 4))
        ^ ((low >> 55) | (middle << 9))
}

pub fn limb5(word: Word) -> u64
    ensures { Limb (held word) 5 result }
{
    let Word { low, middle, high } = word;
    (high >> 33)
        ^ (high >> 26)
        ^ (high >> 25)
        ^ (high >> 6)
        ^ ((middle >> 60) | (high << 4))
        ^ ((middle >> 55) | (high << 9))
}

pub fn limb6(word: Word) -> u64
    ensures { Limb (held word) 6 result }
{
    word.high >> 55
}
