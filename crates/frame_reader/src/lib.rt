// Reading a frame by the edition named: the tests in their order, and the record, with the tuner that the reader is told.
#![tactic(auto)]

ghost use Rattle.std.specs.Prelude.{◌≡◌};
ghost use Rattle.dsc.specs.Marks.{unmarked};
ghost use Rattle.frame.specs.Read.{reading_verdict, read_of, judge_of, cleaned_of};
ghost use Rattle.frame_reader.specs.Examined.{examined_refused, word_examined, answer_examined, examined_by, cleaned_from};

use dsc::{Answer, Outcome};
use frame::{Cleaned, Edition, Origin, Reading, Tuner, Verdict};
use frame_refusals::Preamble;

// A frame examined: what is read, with the repaired word beside it, which is 0 on a refusal.
#[derive(Clone, Copy)]
pub struct Examined {
    pub reading: Reading,
    pub word: [u8; 26],
}

// A refusal, with no word.
pub fn refused(number: u8) -> Examined
    ensures { result ≡ examined_refused number }
{
    Examined {
        reading: Reading::Refused(number),
        word: [0; 26],
    }
}

// A repaired frame, tested and read; the origin goes into the record.
fn examine_word(
    edition: Edition,
    origin: Origin,
    reference: u64,
    pattern: u64,
    differing: u8,
    word: [u8; 26],
) -> Examined
    ensures { result ≡ word_examined edition origin reference pattern differing word }
{
    let details = frame_refusals::word_details(edition, reference, pattern, &word);
    let number = frame_refusals::word_refusal(edition, &word, details);
    if number != 0 {
        return refused(number);
    }
    let mut contents = details.contents;
    contents.origin = origin;
    Examined {
        reading: Reading::Accepted(contents, differing),
        word,
    }
}

// The repair's answer to a frame that has passed the tests before it, tested and read.
pub fn examine_answer(
    edition: Edition,
    tuner: Tuner,
    reference: u64,
    pattern: u64,
    differing: u8,
    answer: Answer,
) -> Examined
    ensures { result ≡ answer_examined edition tuner reference pattern differing answer }
{
    let outcome = answer.outcome;
    match outcome {
        Outcome::Repaired(repaired) => {
            let origin = Origin { tuner, repaired };
            let word = answer.word;
            examine_word(edition, origin, reference, pattern, differing, word)
        }
        // the frame has 26 bytes, so there is no code word near enough
        Outcome::Refused(_) => refused(4),
    }
}

// Any bytes, tested in the order of the refusals and read.
fn examine(edition: Edition, tuner: Tuner, frame: &[u8]) -> Examined
    ensures { result ≡ examined_by edition unmarked tuner frame.now }
{
    match frame_refusals::preamble_of(frame) {
        Preamble::Passed(reference, pattern, differing) => {
            let answer = dsc_codec::repair(frame);
            examine_answer(edition, tuner, reference, pattern, differing, answer)
        }
        Preamble::Refused(number) => refused(number),
    }
}

// What judging says of a reading: the refusal's number, or 0 with the number of repaired places.
pub fn verdict_of(reading: Reading) -> Verdict
    ensures { result ≡ reading_verdict reading }
{
    match reading {
        Reading::Accepted(contents, _) => Verdict {
            number: 0,
            repaired: contents.origin.repaired,
        },
        Reading::Refused(number) => Verdict {
            number,
            repaired: 0,
        },
    }
}

// The frame with its damage repaired, and the pattern's own bits.
pub fn cleaned_of(examined: Examined) -> Cleaned
    ensures { result ≡ cleaned_from examined }
{
    let reading = examined.reading;
    match reading {
        Reading::Accepted(contents, _) => {
            let mut cleaned = examined.word;
            bit_fields::put(&mut cleaned, 0, 1, contents.reference);
            bit_fields::put(
                &mut cleaned,
                1,
                16,
                sync_pattern::pattern_word(contents.pattern),
            );
            Cleaned {
                number: 0,
                frame: cleaned,
            }
        }
        Reading::Refused(number) => Cleaned {
            number,
            frame: [0; 26],
        },
    }
}

// The record of a frame, with the tuner told and the number of repaired places, and beside it the bits of B1 to B16 that differed; or the refusal.
pub fn read(edition: Edition, tuner: Tuner, frame: &[u8]) -> Reading
    ensures { result ≡ read_of edition tuner frame.now }
{
    let examined = examine(edition, tuner, frame);
    examined.reading
}

// Whether a frame is accepted: the refusal's number, or 0 with the number of its repaired places.
pub fn judge(edition: Edition, frame: &[u8]) -> Verdict
    ensures { result ≡ judge_of edition frame.now }
{
    verdict_of(read(edition, Tuner::None, frame))
}

// The frame with its damage repaired.
pub fn clean(edition: Edition, frame: &[u8]) -> Cleaned
    ensures { result ≡ cleaned_of edition frame.now }
{
    cleaned_of(examine(edition, Tuner::None, frame))
}
