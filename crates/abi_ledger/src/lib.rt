// The day's ledger over plain numbers and slices, as a C program can call it: a ledger is its 12 numbers in the order of the report.
#![tactic(auto)]

ghost use Rattle.std.specs.Prelude.{◌≡◌, length};
ghost use Rattle.abi_edition.specs.Edition.{edition_of};
ghost use Rattle.abi_ledger.specs.Ledger.{answer_status, answer_numbers, count_status, count_numbers, length_status, print_status, print_text, parse_status, parse_numbers};

use ledger::LedgerAnswer;

// An answer told: the ledger's numbers where nothing is refused. It requires the buffer's length, since its callers have tested it.
fn put_answer(answer: LedgerAnswer, numbers: &mut [u64]) -> u32
    requires { length numbers.old ≡ 12 }
    ensures status { result ≡ answer_status answer }
    ensures numbers { numbers.new ≡ answer_numbers answer numbers.old }
{
    if answer.number != 0 {
        return abi::status(answer.number, 0);
    }
    let told = ledger_numbers::numbers_of(answer.ledger);
    abi::copy(&told, numbers);
    abi::status(0, 0)
}

// Counts a frame, judged by the edition named.
pub fn ledger_count(edition: u32, numbers: &mut [u64], frame: &[u8]) -> u32
    ensures status { result ≡ count_status (edition_of edition) numbers.old frame.now }
    ensures numbers { numbers.new ≡ count_numbers (edition_of edition) numbers.old frame.now }
{
    if numbers.len() != 12 {
        return abi::status(1, 0);
    }
    let ledger = ledger_numbers::ledger_from(numbers);
    put_answer(
        ledger_counter::count(ledger, abi_edition::edition_of(edition), frame),
        numbers,
    )
}

// How many bytes the report has: they stand above the number.
pub fn ledger_length(numbers: &[u64]) -> u32
    ensures { result ≡ length_status numbers.now }
{
    if numbers.len() != 12 {
        return abi::status(1, 0);
    }
    let length = ledger_printer::report_length(ledger_numbers::ledger_from(numbers));
    abi::status(length.number, length.bytes as u8)
}

// Prints the report into a buffer of its size.
pub fn ledger_print(numbers: &[u64], text: &mut [u8]) -> u32
    ensures status { result ≡ print_status numbers.now text.old }
    ensures text { text.new ≡ print_text numbers.now text.old }
{
    if numbers.len() != 12 {
        return abi::status(1, 0);
    }
    let printed = ledger_printer::print(ledger_numbers::ledger_from(numbers), text);
    abi::status(printed, 0)
}

// Reads a report.
pub fn ledger_parse(text: &[u8], numbers: &mut [u64]) -> u32
    ensures status { result ≡ parse_status text.now numbers.old }
    ensures numbers { numbers.new ≡ parse_numbers text.now numbers.old }
{
    if numbers.len() != 12 {
        return abi::status(1, 0);
    }
    put_answer(ledger_parser::parse(text), numbers)
}
