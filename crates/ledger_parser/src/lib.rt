// The reader of a printed report, strictly from the front: a line for each label, and nothing behind the last.
#![tactic(auto)]

ghost use Rattle.std.specs.Prelude.{◌≡◌, [], ◌<◌, false, true, length, drop, get_or};
ghost use Rattle.std.specs.Option.{MatchOption};
ghost use Rattle.decimals.specs.Reading.{starts_with};
ghost use Rattle.ledger.specs.Report.{labels, line_at, numbers_in, not_report, parse_of};
ghost use Rattle.ledger_labels.specs.Labels.{label_text};

use decimals::Number;
use ledger::{Ledger, LedgerAnswer};

// What stands behind the label, if the text begins with it.
#[tactic(auto, using(crate::proofs::Parsed::by_label))]
fn behind_label<'a>(label: &[u8], text: &'a [u8]) -> Option<&'a [u8]>
    ensures { MatchOption result (starts_with label.now text.now ≡ false) (λ behind. (starts_with label.now text.now ≡ true) × (behind.now ≡ drop (length label.now) text.now)) }
{
    text.strip_prefix(label)
}

// The number of the line that the text begins with, if it is one with this label, and how many bytes the line has.
#[tactic(auto, using(crate::proofs::Parsed::by_line))]
fn read_labelled(label: &[u8], text: &[u8]) -> Option<Number>
    ensures { result ≡ line_at label.now text.now }
{
    let behind = behind_label(label, text)?;
    let number = decimals::read_decimal(behind)?;
    let is_ended = *behind.get(number.bytes)? == b'\n';
    if !is_ended {
        return None;
    }
    Some(Number {
        value: number.value,
        bytes: label.len() + number.bytes + 1,
    })
}

// The same with label i of the labels' text.
fn read_line(all: &[u8], i: usize, text: &[u8]) -> Option<Number>
    requires all_value { all.now ≡ label_text }
    requires i_bound { i < 12 }
    ensures { result ≡ line_at (get_or labels i []) text.now }
{
    let start = ledger_labels::start(i);
    let end = ledger_labels::start(i + 1);
    read_labelled(&all[start..end], text)
}

// The numbers of the 12 lines, if the text is these lines and nothing else.
fn read_numbers(text: &[u8]) -> Option<[u64; 12]>
    ensures { result ≡ numbers_in labels text.now }
{
    let all = ledger_labels::text();
    let mut numbers = [0; 12];
    let mut rest = text;
    for i in 0..12 {
        let line = read_line(&all, i, rest)?;
        numbers[i] = line.value;
        rest = &rest[line.bytes..];
    }
    rest.is_empty().then_some(numbers)
}

// The answer to what is no report of a possible ledger.
fn not_report() -> LedgerAnswer
    ensures { result ≡ not_report }
{
    LedgerAnswer {
        number: 18,
        ledger: Ledger::fresh(),
    }
}

// The ledger whose report the text is.
pub fn parse(text: &[u8]) -> LedgerAnswer
    ensures { result ≡ parse_of text.now }
{
    let Some(numbers) = read_numbers(text) else {
        return not_report();
    };
    let ledger = ledger_numbers::ledger_from(&numbers);
    if !ledger_numbers::possible(ledger) {
        return not_report();
    }
    LedgerAnswer { number: 0, ledger }
}
