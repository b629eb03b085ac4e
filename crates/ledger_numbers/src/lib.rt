// The numbers of a ledger: whether some list of frames gives them, a frame more, and the 12 of them in the order of the report.
#![tactic(auto)]

ghost use Rattle.std.specs.Prelude.{◌≡◌, true, ◌≤◌, min, length};
ghost use Rattle.bits.specs.Layout.{sum};
ghost use Rattle.ledger.specs.Counting.{places_counted, possible, with_verdict};
ghost use Rattle.ledger.specs.Report.{numbers_of, ledger_from};

use frame::Verdict;
use ledger::Ledger;

// The 12 numbers of a ledger, in the order of its report.
pub fn numbers_of(ledger: Ledger) -> [u64; 12]
    ensures { result ≡ numbers_of ledger }
{
    let refused = ledger.refused;
    [
        ledger.seen,
        refused[0],
        refused[1],
        refused[2],
        refused[3],
        refused[4],
        refused[5],
        refused[6],
        refused[7],
        refused[8],
        ledger.accepted,
        ledger.repaired,
    ]
}

// The ledger of 12 numbers. The size is required: the callers have tested it.
pub fn ledger_from(numbers: &[u64]) -> Ledger
    requires { length numbers.now ≡ 12 }
    ensures { result ≡ ledger_from numbers.now }
{
    Ledger {
        seen: numbers[0],
        refused: [
            numbers[1], numbers[2], numbers[3], numbers[4], numbers[5], numbers[6], numbers[7],
            numbers[8], numbers[9],
        ],
        accepted: numbers[10],
        repaired: numbers[11],
    }
}

// The sum of the frames refused, or 4,000,001 where it is greater than 4,000,000, so that no sum is too large whatever the numbers are.
fn limited_sum(refused: &[u64; 9]) -> u64
    ensures { result ≡ min (sum refused.now) 4000001 }
{
    let mut total = 0;
    for &count in refused {
        if count > 4000000 - total {
            return 4000001;
        }
        total += count;
    }
    total
}

// Whether some list of at most 4,000,000 frames gives the ledger.
pub fn possible(ledger: Ledger) -> bool
    ensures { result ≡ possible ledger }
{
    let refused = ledger.refused;
    let total = limited_sum(&refused);
    if total > 4000000 {
        return false;
    }
    if ledger.accepted > 4000000 - total {
        return false;
    }
    if ledger.seen != total + ledger.accepted {
        return false;
    }
    ledger.repaired <= 8 * ledger.accepted
}

// The repaired places of an accepted frame, and none of a refused one.
fn places_counted(verdict: Verdict) -> u8
    ensures { result ≡ places_counted verdict }
{
    let places = verdict.repaired;
    if verdict.number != 0 {
        return 0;
    }
    places
}

// The ledger with a frame more that was judged so. It requires a possible ledger, and the number of a frame's verdict: the callers have tested the one, and
// judged a frame.
pub fn with_verdict(ledger: Ledger, verdict: Verdict) -> Ledger
    requires ledger_value { possible ledger ≡ true }
    requires number_bound { verdict.number ≤ 9 }
    ensures { result ≡ with_verdict ledger verdict }
{
    let mut refused = ledger.refused;
    let places = places_counted(verdict) as u64;
    if verdict.number == 0 {
        return Ledger {
            seen: ledger.seen + 1,
            refused,
            accepted: ledger.accepted + 1,
            repaired: ledger.repaired + places,
        };
    }
    let i = (verdict.number - 1) as usize;
    refused[i] += 1;
    Ledger {
        seen: ledger.seen + 1,
        refused,
        accepted: ledger.accepted,
        repaired: ledger.repaired + places,
    }
}
