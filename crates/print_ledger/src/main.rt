// Writes the report of the frames on standard input, judged by the first edition.
#![tactic(auto)]

use frame::Edition;
use std::io;

fn main(rt: HostRuntime) -> io::Result<()> {
    ledger_io::run(Edition::First, &mut rt.stdin(), &mut rt.stdout())
}
