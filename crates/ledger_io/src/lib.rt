// The ledger of the frames that a reader gives, and its report on a writer, by the edition named. What is counted is proved in `ledger_input` and
// `ledger_counter`, and the text in `ledger_printer`; here is only the reading and writing, 65,520 bytes at a time, so that the system is asked seldom.
#![tactic(auto)]

ghost use Rattle.std.specs.Prelude.{◌≡◌, ◌≤◌, length, IfOk, OnOk, IfSome};
ghost use Rattle.std.specs.Io.KnownBytes.{Appends};
ghost use Rattle.ledger.specs.Report.{length_of};
ghost use Rattle.ledger_input.specs.Input.{input_report, with_report};
ghost use Rattle.ledger_io.specs.Reading.{TurnMade, Follows, Reports};

use frame::Edition;
use ledger::Ledger;
use ledger_input::LedgerTurn;
use std::io;
use std::io::{Read, Write};

// 65,536 zeros: no turn wants more.
fn input_buffer() -> [u8; 65536]
    ensures { 65536 ≡ length result }
{
    [0; 65536]
}

// One turn: reads what is wanted, and counts it.
fn next<R: Read>(
    edition: Edition,
    before: LedgerTurn,
    input: &mut [u8],
    from: &mut R,
) -> io::Result<LedgerTurn>
    requires { before.wanted ≤ length input.old }
    ensures made { IfOk result (λ turn. TurnMade edition before input.new turn) }
    ensures follows { IfOk result (λ turn. Follows edition before (R.remaining from.old) (R.remaining from.new) turn) }
{
    let got = input_io::read(before.wanted, input, from)?;
    Ok(ledger_counter::count_turn(edition, before, &input[..got]))
}

// The report of a ledger at the start of a buffer; how many bytes it is. An impossible ledger has none.
fn put_report(ledger: Ledger, text: &mut [u8]) -> usize
    requires { 203 ≤ length text.old }
    ensures count { result ≡ length_of ledger }
    ensures text { text.new ≡ with_report ledger text.old }
{
    let bytes = ledger_printer::report_length(ledger).bytes;
    ledger_printer::print(ledger, &mut text[..bytes]);
    bytes
}

// Writes the report of a ledger.
fn write_report<W: Write>(ledger: Ledger, to: &mut W) -> io::Result<()>
    ensures { OnOk result (Reports ledger (W.contents to.old) (W.contents to.new)) }
{
    let mut text = [0u8; 256];
    let bytes = put_report(ledger, &mut text);
    to.write_all(&text[..bytes])
}

// The report of the whole input: turns, while something is wanted. Where the reader's bytes are known, what is written is the report of them all.
pub fn run<R: Read, W: Write>(edition: Edition, from: &mut R, to: &mut W) -> io::Result<()>
    ensures { OnOk result (IfSome (R.remaining from.old) (λ s. Appends (W.contents to.old) (W.contents to.new) (input_report edition s))) }
{
    let mut input = input_buffer();
    let mut turn = ledger_input::start();
    while turn.wanted != 0 {
        turn = next(edition, turn, &mut input, from)?;
    }
    write_report(turn.ledger, to)
}
