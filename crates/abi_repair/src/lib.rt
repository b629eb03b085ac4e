// The repair asked for alone, over plain numbers and slices, as a C program can call it: by the shipped engine, by the second one,
// and with doubtful marks.
#![tactic(auto)]

ghost use Rattle.std.specs.Prelude.{◌≡◌, length};
ghost use Rattle.dsc.specs.Marks.{unmarked, marked};
ghost use Rattle.dsc.specs.Repair.{outcome_number, outcome_places, left_in};
ghost use Rattle.abi.specs.Status.{status_of};
ghost use Rattle.abi_repair.specs.Repair.{repair_status, repair_word};

use dsc::{Answer, Outcome};

// How many bytes a buffer for a word has.
const WORD_BYTES: usize = 26;

// An outcome as a status.
fn status_of(outcome: Outcome) -> u32
    ensures { result ≡ status_of (outcome_number outcome) (outcome_places outcome) }
{
    match outcome {
        Outcome::Repaired(places) => abi::status(0, places),
        Outcome::Refused(number) => abi::status(number, 0),
    }
}

// An answer's word into the buffer where it is a repair.
fn put_answer(answer: Answer, word: &mut [u8])
    requires { length answer.word ≡ length word.old }
    ensures { word.new ≡ left_in answer word.old }
{
    let outcome = answer.outcome;
    match outcome {
        Outcome::Repaired(_) => {
            let repaired = answer.word;
            word.copy_from_slice(&repaired);
        }
        Outcome::Refused(_) => {}
    }
}

// The repaired word, B17 to B203 at their places and 0 elsewhere, into 26 bytes.
pub fn repair(frame: &[u8], word: &mut [u8]) -> u32
    ensures value { result ≡ repair_status unmarked frame.now word.old }
    ensures word_after { word.new ≡ repair_word unmarked frame.now word.old }
{
    if word.len() != WORD_BYTES {
        return abi::status(1, 0);
    }
    let outcome = dsc_codec::repair_into(frame, word);
    status_of(outcome)
}

// The same by the second engine, the register: slower, for comparison.
pub fn repair_register(frame: &[u8], word: &mut [u8]) -> u32
    ensures value { result ≡ repair_status unmarked frame.now word.old }
    ensures word_after { word.new ≡ repair_word unmarked frame.now word.old }
{
    if word.len() != WORD_BYTES {
        return abi::status(1, 0);
    }
    let answer = dsc_register::repair(frame);
    let outcome = answer.outcome;
    put_answer(answer, word);
    status_of(outcome)
}

// The repair with marks: the number of unmarked places in which the word differs stands above the number.
pub fn repair_marked(frame: &[u8], marks: &[u8], word: &mut [u8]) -> u32
    ensures value { result ≡ repair_status (marked marks.now) frame.now word.old }
    ensures word_after { word.new ≡ repair_word (marked marks.now) frame.now word.old }
{
    if word.len() != WORD_BYTES {
        return abi::status(1, 0);
    }
    let outcome = dsc_marked::repair_marked_into(frame, marks, word);
    status_of(outcome)
}
