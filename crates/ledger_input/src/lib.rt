// The ledger of an input, in turns: a part of the input is read, its frames are counted, and so on until nothing is left to read. The rules are in specs/;
// here are the numbers of a turn, and `ledger_counter` makes one.
#![tactic(auto)]

ghost use Rattle.std.specs.Prelude.{◌≡◌};
ghost use Rattle.ledger_input.specs.Input.{start, wanted_at};

use ledger::Ledger;

// What a turn answers: the ledger so far, and how many bytes are to be read next, 0 where the input has ended or 4,000,000 frames are counted.
#[derive(Clone, Copy)]
pub struct LedgerTurn {
    pub ledger: Ledger,
    pub wanted: usize,
}

// How many bytes are read after so many frames: 2,520 frames of 26 bytes, or those that are left to 4,000,000.
pub fn wanted_at(seen: u64) -> usize
    ensures { result ≡ wanted_at seen }
{
    if seen > 4000000 {
        return 0;
    }
    let left = (4000000 - seen) as usize;
    if left < 2520 {
        return 26 * left;
    }
    65520
}

// Before the first turn.
pub fn start() -> LedgerTurn
    ensures { result ≡ start }
{
    LedgerTurn {
        ledger: Ledger::fresh(),
        wanted: 65520,
    }
}
