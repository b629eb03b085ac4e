// The repair with doubtful marks: the code word that differs in t unmarked places with 2t+s at most 17, where s marks are set. A code word differs from
// the received bits with 0 under all marks and from those with 1 under all marks in 2t+s places together, so that it lies within eight places of one of the
// two, where the plain repair finds it.
#![tactic(auto)]

ghost use Rattle.std.specs.Prelude.{◌≡◌, ◌≤◌, length};
ghost use Rattle.dsc.specs.Code.{weight};
ghost use Rattle.dsc.specs.Marks.{marked_repair_of};
ghost use Rattle.dsc.specs.Repair.{left_in};
ghost use Rattle.dsc_words.specs.Words.{held};
ghost use Rattle.dsc_marked.specs.Fillings.{Tested, Tried, MarkedFinds};

use dsc::{Answer, Outcome};
use dsc_codec::Nearest;
use dsc_words::Word;

// The doubtful places as a word, and how many they are.
#[derive(Clone, Copy)]
struct Marks {
    word: Word,
    count: u32,
    ghost counted: { count ≡ weight (held word) },
    ghost at_most_192: { count ≤ 192 },
}

// The code word with the number of unmarked places in which it differs, if these are few enough beside so many marks.
fn accepted(word: Word, received: Word, marks: Marks) -> Option<Nearest>
    ensures { Tested (held marks.word) (held received) word result }
{
    let errors = received.sum(word);
    let counted = errors.clear_marked(marks.word);
    let places = counted.weight();
    if 17 < 2 * places + marks.count {
        return None;
    }
    Some(Nearest {
        word,
        places: places as u8,
    })
}

// The code word within eight places of the received bits as they are filled under the marks, if it is accepted.
fn try_filling(filling: Word, received: Word, marks: Marks) -> Option<Nearest>
    ensures { Tried (held marks.word) (held received) (held filling) result }
{
    let nearest = dsc_codec::find(filling)?;
    accepted(nearest.word, received, marks)
}

// The code word with 2t+s at most 17, by the two fillings.
fn find_filled(received: Word, marks: Marks) -> Option<Nearest>
    ensures { MarkedFinds (held marks.word) (held received) result }
{
    let cleared = received.clear_marked(marks.word);
    let filled = received.set_marked(marks.word);
    try_filling(cleared, received, marks).or_else(|| try_filling(filled, received, marks))
}

// The same. Without a mark the plain repair is enough, and a received code word, whose check rows are all even, is its own repair: neither waits for the
// fillings.
#[tactic(auto, using(crate::proofs::Cases::unfilled))]
fn find_marked(received: Word, marks: Word) -> Option<Nearest>
    ensures { MarkedFinds (held marks) (held received) result }
{
    let count = marks.weight();
    if count == 0 {
        return dsc_codec::find(received);
    }
    if 17 < count {
        return None;
    }
    let middle = dsc_sums::middle_sums(received);
    if (middle.rows128 | middle.rows192) == 0 {
        return Some(Nearest {
            word: received,
            places: 0,
        });
    }
    find_filled(received, Marks { word: marks, count })
}

// The repair of a frame with its marks, into a buffer that is lent, which a refusal leaves as it was. Refuses 1, then 4. The caller has tested the buffer's
// length.
#[tactic(auto, using(crate::proofs::Cases::answers))]
pub fn repair_marked_into(frame: &[u8], marks: &[u8], word: &mut [u8]) -> Outcome
    requires { length word.old ≡ 26 }
    ensures value { result ≡ (marked_repair_of frame.now marks.now).outcome }
    ensures word_after { word.new ≡ left_in (marked_repair_of frame.now marks.now) word.old }
{
    if frame.len() != 26 {
        return Outcome::Refused(1);
    }
    if marks.len() != 26 {
        return Outcome::Refused(1);
    }
    let received = Word::received(frame);
    let doubtful = Word::received(marks);
    let Some(nearest) = find_marked(received, doubtful) else {
        return Outcome::Refused(4);
    };
    nearest.word.put(word);
    Outcome::Repaired(nearest.places)
}

// The same with the word in the answer, all 0 on a refusal.
pub fn repair_marked(frame: &[u8], marks: &[u8]) -> Answer
    ensures { result ≡ marked_repair_of frame.now marks.now }
{
    let mut word = [0; 26];
    let outcome = repair_marked_into(frame, marks, &mut word);
    Answer { outcome, word }
}
