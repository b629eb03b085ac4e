// What stands before the number of each line of a report: one text for the printer and the parser.
#![tactic(auto)]

ghost use Rattle.std.specs.Prelude.{◌≡◌, ◌≤◌};
ghost use Rattle.ledger_labels.specs.Labels.{label_text, label_start};

// The 12 labels, end to end.
pub fn text() -> [u8; 113]
    ensures { result ≡ label_text }
{
    *b"seen refused 1 refused 2 refused 3 refused 4 refused 5 refused 6 refused 7 refused 8 refused 9 accepted repaired "
}

// Where label i begins, and where the last one ends. It requires that there is such a line: printer and parser go through the 12 of them.
pub fn start(i: usize) -> usize
    requires { i ≤ 12 }
    ensures { result ≡ label_start i }
{
    let starts = [0, 5, 15, 25, 35, 45, 55, 65, 75, 85, 95, 104, 113];
    starts[i]
}
