// The printed report of a ledger: how many bytes it has, and its text.
#![tactic(auto)]

ghost use Rattle.std.specs.Prelude.{◌≡◌, [], ◌+◌, ◌≤◌, ◌<◌, length, get_or};
ghost use Rattle.decimals.specs.Put.{Put};
ghost use Rattle.ledger.specs.Report.{labels, labelled_line, labelled_lines, length_number, length_of, print_number, print_of};
ghost use Rattle.ledger_labels.specs.Labels.{label_text};

use ledger::Ledger;

// The refusal's number, or 0 with how many bytes the report has.
#[derive(Clone, Copy)]
pub struct ReportLength {
    pub number: u8,
    pub bytes: usize,
}

// How many bytes the report of 12 numbers has: 113 of labels, 12 line feeds and the digits.
fn lines_length(numbers: &[u64; 12]) -> usize
    ensures { result ≡ length (labelled_lines labels numbers.now) }
{
    let mut total = 125;
    for &number in numbers {
        total += decimals::digit_count(number);
    }
    total
}

// A text from place at on; the place after it.
fn put_text(out: &mut [u8], at: usize, text: &[u8]) -> usize
    requires { at + length text.now ≤ length out.old }
    ensures { Put out.old at text.now out.new result }
{
    let end = at + text.len();
    out[at..end].copy_from_slice(text);
    end
}

// The line with label i of the labels' text, from place at on; the place after it.
fn put_line(out: &mut [u8], at: usize, text: &[u8], i: usize, number: u64) -> usize
    requires text_value { text.now ≡ label_text }
    requires i_bound { i < 12 }
    requires number_in_bounds { at + length (labelled_line (get_or labels i []) number) ≤ length out.old }
    ensures { Put out.old at (labelled_line (get_or labels i []) number) out.new result }
{
    let start = ledger_labels::start(i);
    let end = ledger_labels::start(i + 1);
    let mut place = put_text(out, at, &text[start..end]);
    place = decimals::put_decimal(out, place, number);
    decimals::put_byte(out, place, b'\n')
}

// The lines of 12 numbers, which fill the buffer.
fn put_lines(out: &mut [u8], numbers: &[u64; 12])
    requires { length out.old ≡ length (labelled_lines labels numbers.now) }
    ensures { out.new ≡ labelled_lines labels numbers.now }
{
    let text = ledger_labels::text();
    let mut at = 0;
    for (i, &number) in numbers.iter().enumerate() {
        at = put_line(out, at, &text, i, number);
    }
}

// How many bytes the report of a ledger has.
pub fn report_length(ledger: Ledger) -> ReportLength
    ensures { result ≡ record { number = length_number ledger; bytes = length_of ledger } }
{
    if !ledger_numbers::possible(ledger) {
        return ReportLength {
            number: 18,
            bytes: 0,
        };
    }
    let numbers = ledger_numbers::numbers_of(ledger);
    ReportLength {
        number: 0,
        bytes: lines_length(&numbers),
    }
}

// The report of a ledger, in a buffer of its size: the refusal's number, or 0.
pub fn print(ledger: Ledger, text: &mut [u8]) -> u8
    ensures number { result ≡ print_number ledger (length text.old) }
    ensures text { text.new ≡ print_of ledger text.old }
{
    if !ledger_numbers::possible(ledger) {
        return 18;
    }
    let numbers = ledger_numbers::numbers_of(ledger);
    if text.len() != lines_length(&numbers) {
        return 27;
    }
    put_lines(text, &numbers);
    0
}
