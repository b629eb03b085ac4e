// The tests of a frame: those before the repair, and those of the repaired frame, by the edition named.
#![tactic(auto)]

ghost use Rattle.std.specs.Prelude.{◌≡◌, not, eqb, length, take, drop};
ghost use Rattle.bits.specs.Bits.{bits};
ghost use Rattle.bits.specs.Field.{field_at};
ghost use Rattle.bits.specs.Refusal.{first_refusal};
ghost use Rattle.crc.specs.Crc.{crc10_of};
ghost use Rattle.frame.specs.Read.{body_in, after_repair};
ghost use Rattle.frame_refusals.specs.Preamble.{preamble_of};
ghost use Rattle.frame_refusals.specs.Word.{word_details, Tells};

use frame::{Body, Edition};
use frame_details::Details;

// What the tests before the repair say, and what they find before the word, in B0 to B16.
#[derive(Clone, Copy)]
pub enum Preamble {
    // the reference, the pattern, and how many bits of B1 to B16 differ from it
    Passed(u64, u64, u8),
    // 1, 2 or 3
    Refused(u8),
}

// The tests before the repair.
pub fn preamble_of(frame: &[u8]) -> Preamble
    ensures { result ≡ preamble_of frame.now }
{
    if frame.len() != 26 {
        return Preamble::Refused(1);
    }
    let filler = bit_fields::get(frame, 204, 4);
    if filler != 0 {
        return Preamble::Refused(2);
    }
    let reference = bit_fields::get(frame, 0, 1);
    let Some(fit) = sync_pattern::sync_of(bit_fields::get(frame, 1, 16)) else {
        return Preamble::Refused(3);
    };
    Preamble::Passed(reference, fit.pattern, fit.differing)
}

// The body of a repaired frame.
fn word_body(edition: Edition, word: &[u8]) -> Body
    requires { length word.now ≡ 26 }
    ensures { result ≡ body_in edition word.now }
{
    let announced = frame_kinds::class_of(edition, bit_fields::get(word, 21, 3));
    let page = bit_fields::get(word, 55, 1);
    let kind = bit_fields::get(word, 67, 1);
    frame_kinds::body_of(announced, page, kind)
}

// The details of a repaired frame. Here and below its 26 bytes are required: the caller has them from the repair.
pub fn word_details(edition: Edition, reference: u64, pattern: u64, word: &[u8]) -> Details
    requires { length word.now ≡ 26 }
    ensures { result ≡ word_details edition reference pattern word.now }
{
    let body = word_body(edition, word);
    let identification = bit_fields::get(word, 21, 3);
    let update = bit_fields::get(word, 19, 2);
    frame_details::read_details(body, reference, pattern, identification, update, &word[3..])
}

// The CRC of a repaired frame is not the one that stands in it.
fn crc_differs(word: &[u8]) -> bool
    requires { length word.now ≡ 26 }
    ensures { result ≡ not (eqb (field_at word.now 112 10) (crc10_of (take 91 (drop 21 (bits word.now))))) }
{
    let stands = bit_fields::get(word, 112, 10);
    let crc = crc10::crc10(word, 21, 91);
    stands != crc as u64
}

// The tests after the repair: 5 to 9, or 0. The details are required to be those of the word: the caller has read them already.
pub fn word_refusal(edition: Edition, word: &[u8], details: Details) -> u8
    requires { (length word.now ≡ 26) × Tells edition word.now details }
    ensures { result ≡ first_refusal (after_repair edition word.now) }
{
    if crc_differs(word) {
        return 5;
    }
    let class = frame_kinds::class_of(edition, bit_fields::get(word, 21, 3));
    if frame_kinds::is_undefined(class) {
        return 6;
    }
    let start = bit_fields::get(word, 17, 2);
    let update = bit_fields::get(word, 19, 2);
    if frame_kinds::flags_wrong(class, start, update) {
        return 7;
    }
    if !details.holds {
        return 8;
    }
    if frame_kinds::over_limit(
        word_body(edition, word),
        details.contents.latitude,
        details.contents.longitude,
    ) {
        return 9;
    }
    0
}
