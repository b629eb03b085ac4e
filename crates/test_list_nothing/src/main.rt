// The listing of no frames.
#![tactic(auto)]

use frame::Edition;
use listing::Pieces;
use std::io;

fn main(rt: HostRuntime) -> io::Result<()> {
    listing_io::run(
        Edition::First,
        Pieces::Frames,
        &mut rt.stdin(),
        &mut rt.stdout(),
    )
}
