// The repair of the protected part, 64 check rows at a time, and its encoder.
#![tactic(auto)]

ghost use Rattle.std.specs.Prelude.{◌≡◌, length};
ghost use Rattle.dsc.specs.Encoding.{encode_of};
ghost use Rattle.dsc.specs.Repair.{repair_of, left_in, Repairs};
ghost use Rattle.dsc_words.specs.Words.{held};
ghost use Rattle.dsc_codec.specs.Engine.{Finds};

use dsc::{Answer, Outcome};
use dsc_words::Word;

// A code word within eight places of the received one, and in how many it differs. `dsc_marked` has this and `find` too.
#[derive(Clone, Copy)]
pub struct Nearest {
    pub word: Word,
    pub places: u8,
}

// The code word within eight places of 187 received bits: the received word without its errors, if that is a code word. It is exactly where the errors have
// the received sums.
#[tactic(auto, using(crate::proofs::Verdict::ways_out))]
pub fn find(received: Word) -> Option<Nearest>
    ensures { Finds (held received) result }
{
    let middle = dsc_sums::middle_sums(received);
    if (middle.rows128 | middle.rows192) == 0 {
        return Some(Nearest {
            word: received,
            places: 0,
        });
    }
    let outer = dsc_sums::outer_sums(received);
    let errors = dsc_errors::errors(middle, outer)?;
    let theirs = dsc_sums::middle_sums(errors.word);
    if ((middle.rows128 ^ theirs.rows128) | (middle.rows192 ^ theirs.rows192)) != 0 {
        return None;
    }
    let mended = received.sum(errors.word);
    Some(Nearest {
        word: mended,
        places: errors.places,
    })
}

// The repair of a frame into a buffer that is lent, which a refusal leaves as it was: no copy of the word is made. It looks only at B17 to B203, and refuses 1,
// then 4. The caller has tested the buffer's length.
#[tactic(auto, using(crate::proofs::Verdict::answers))]
pub fn repair_into(frame: &[u8], word: &mut [u8]) -> Outcome
    requires { length word.old ≡ 26 }
    ensures value { result ≡ (repair_of frame.now).outcome }
    ensures word_after { word.new ≡ left_in (repair_of frame.now) word.old }
{
    if frame.len() != 26 {
        return Outcome::Refused(1);
    }
    let Some(nearest) = find(Word::received(frame)) else {
        return Outcome::Refused(4);
    };
    nearest.word.put(word);
    Outcome::Repaired(nearest.places)
}

// The same with the word in the answer, all 0 on a refusal.
pub fn repair(frame: &[u8]) -> Answer
    ensures { Repairs frame.now result × (result ≡ repair_of frame.now) }
{
    let mut word = [0; 26];
    let outcome = repair_into(frame, &mut word);
    Answer { outcome, word }
}

// The parity of B17 to B121, written to B122 to B203; all else stays, and bytes that are no frame stay whole.
pub fn encode(frame: &mut [u8])
    ensures { frame.new ≡ encode_of frame.old }
{
    if frame.len() != 26 {
        return;
    }
    let word = dsc_bytes::received(frame);
    let parity = dsc_encoder::parity(&word);
    let high = dsc_bits::number(&parity, 0, 41);
    let low = dsc_bits::number(&parity, 41, 41);
    bit_fields::put(frame, 122, 41, high);
    bit_fields::put(frame, 163, 41, low);
}
