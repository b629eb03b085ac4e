// The day's ledger: how many frames were seen, refused with each number and accepted, and how many places were repaired in all. The rules are in specs/;
// `ledger_numbers`, `ledger_counter`, `ledger_printer` and `ledger_parser` compute them.
#![tactic(auto)]

ghost use Rattle.std.specs.Prelude.{◌≡◌};
ghost use Rattle.ledger.specs.Counting.{fresh};

// The numbers for the inspector.
#[derive(Clone, Copy)]
pub struct Ledger {
    pub seen: u64,
    // with refusal 1 to 9, that of refusal 1 first
    pub refused: [u64; 9],
    pub accepted: u64,
    // places of B17 to B203 in all accepted frames
    pub repaired: u64,
}

// What counting a frame and reading a report answer: the refusal's number, or 0, with the ledger.
#[derive(Clone, Copy)]
pub struct LedgerAnswer {
    pub number: u8,
    pub ledger: Ledger,
}

impl Ledger {
    // Before the first frame.
    pub fn fresh() -> Self
        ensures { result ≡ fresh }
    {
        Ledger {
            seen: 0,
            refused: [0; 9],
            accepted: 0,
            repaired: 0,
        }
    }

    // For a new list, whatever was counted.
    pub fn emptied(self) -> Self
        ensures { result ≡ fresh }
    {
        Ledger::fresh()
    }
}
