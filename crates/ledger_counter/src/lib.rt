// Counting frames into a ledger: one frame, the frames of an input, and a turn of the program.
#![tactic(auto)]

ghost use Rattle.std.specs.Prelude.{◌≡◌};
ghost use Rattle.ledger.specs.Counting.{count_of, counted_in};
ghost use Rattle.ledger_input.specs.Input.{all_frames, turn_after};

use frame::Edition;
use ledger::{Ledger, LedgerAnswer};
use ledger_input::LedgerTurn;
use listing::Pieces;

// A frame counted, judged by the edition named; 18 where the ledger is impossible, then 19 where it has 4,000,000 frames, and then the ledger stays.
pub fn count(ledger: Ledger, edition: Edition, frame: &[u8]) -> LedgerAnswer
    ensures { result ≡ count_of ledger (edition, frame.now) }
{
    if !ledger_numbers::possible(ledger) {
        return LedgerAnswer { number: 18, ledger };
    }
    if ledger.seen == 4000000 {
        return LedgerAnswer { number: 19, ledger };
    }
    LedgerAnswer {
        number: 0,
        ledger: ledger_numbers::with_verdict(ledger, frame_reader::judge(edition, frame)),
    }
}

// The ledger after all frames of an input, 26 bytes each, the last one perhaps shorter.
fn count_frames(ledger: Ledger, edition: Edition, input: &[u8]) -> Ledger
    ensures { result ≡ counted_in ledger (all_frames edition input.now) }
{
    let mut counted = ledger;
    for frame in input.chunks(listing::piece_size(Pieces::Frames)) {
        counted = count(counted, edition, frame).ledger;
    }
    counted
}

// The turn after another, in which these bytes were read.
pub fn count_turn(edition: Edition, before: LedgerTurn, input: &[u8]) -> LedgerTurn
    ensures { result ≡ turn_after edition before input.now }
{
    let ledger = count_frames(before.ledger, edition, input);
    if input.len() < before.wanted {
        return LedgerTurn { ledger, wanted: 0 };
    }
    LedgerTurn {
        ledger,
        wanted: ledger_input::wanted_at(ledger.seen),
    }
}
