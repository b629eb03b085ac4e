// A word of 187 bits in three machine words: out of a frame's bytes, into bytes, its sum with another, its weight, and what stands in it beside marks.
// Only the repair calls these functions; it has tested the frame's length, which is therefore required.
#![tactic(auto)]

ghost use Rattle.std.specs.Prelude.{◌≡◌, true, false, ◌+◌, ◌*◌, ◌%◌, ◌^◌, ◌<◌, ◌≤◌, length};
ghost use Rattle.std.proofs.lemmas.List.Edits.{sets};
ghost use Rattle.bits.specs.Bits.{bits_of, bytes};
ghost use Rattle.gf2.specs.Polynomial.{add};
ghost use Rattle.dsc.specs.Code as code;
ghost use Rattle.dsc.specs.Marks.{filled};
ghost use Rattle.dsc.specs.Repair.{protected, word_bytes};

// Bit n of the three, the lowest first, is the coefficient of x^n, and no bit past the 187 is set.
#[derive(Clone, Copy)]
pub struct Word {
    pub low: u64,
    pub middle: u64,
    pub high: u64,
    pub ghost fits: { high < 2 ^ 59 },
}

fn low_byte(n: u64) -> u8
    ensures { result ≡ n % 2 ^ 8 }
{
    (n % 256) as u8
}

// The eight bytes of n from byte `at` on, the highest first.
fn put_eight(out: &mut [u8], at: usize, n: u64)
    requires { at + 8 ≤ length out.old }
    ensures { out.new ≡ sets out.old at (bytes 8 (bits_of 64 n)) }
{
    for i in 0..8 {
        out[at + i] = low_byte(n >> (56 - 8 * i));
    }
}

impl Word {
    ghost use Rattle.dsc_words.specs.Words.{held};

    // The protected part, B17 to B203.
    pub fn received(frame: &[u8]) -> Word
        requires { length frame.now ≡ 26 }
        ensures { held result ≡ protected frame.now }
    {
        let x = bit_parts::eight(frame, 18);
        let y = bit_parts::eight(frame, 10);
        let z = bit_parts::eight(frame, 2);
        Word {
            low: (x >> 4) | (y << 60),
            middle: (y >> 4) | (z << 60),
            high: (z << 1) >> 5,
        }
    }

    // The word at B17 to B203, and 0 elsewhere, into 26 bytes.
    pub fn put(self, out: &mut [u8])
        requires { length out.old ≡ 26 }
        ensures { out.new ≡ word_bytes (held self) }
    {
        out[0] = 0;
        out[1] = 0;
        put_eight(out, 2, (self.middle >> 60) | (self.high << 4));
        put_eight(out, 10, (self.low >> 60) | (self.middle << 4));
        put_eight(out, 18, self.low << 4);
    }

    // The sum of two words.
    pub fn sum(self, other: Word) -> Word
        ensures { held result ≡ add (held self) (held other) }
    {
        Word {
            low: self.low ^ other.low,
            middle: self.middle ^ other.middle,
            high: self.high ^ other.high,
        }
    }

    // The word with 0 under every mark.
    pub fn clear_marked(self, marks: Word) -> Word
        ensures { held result ≡ filled false (held marks) (held self) }
    {
        Word {
            low: self.low ^ (self.low & marks.low),
            middle: self.middle ^ (self.middle & marks.middle),
            high: self.high ^ (self.high & marks.high),
        }
    }

    // The word with 1 under every mark.
    pub fn set_marked(self, marks: Word) -> Word
        ensures { held result ≡ filled true (held marks) (held self) }
    {
        Word {
            low: self.low | marks.low,
            middle: self.middle | marks.middle,
            high: self.high | marks.high,
        }
    }

    // How many bits of the word are 1.
    pub fn weight(self) -> u32
        ensures weight { result ≡ code.weight (held self) }
        ensures at_most_192 { result ≤ 192 }
    {
        self.low.count_ones() + self.middle.count_ones() + self.high.count_ones()
    }
}
