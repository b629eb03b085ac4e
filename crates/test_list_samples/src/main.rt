// The listing of frames with 0 to 8 repaired places, of three frames of which three synchronising bits differ from a pattern, of each refusal from 2 to 9
// (3 at four bits from either pattern), of identification 4, 5, 6, 5 with start/end 11, and 6 hit in eight places, all of which the first edition refuses
// (6), and of a short last piece. list_frames_safety is run on the same frames.
#![tactic(auto)]

use frame::Edition;
use listing::Pieces;
use std::io;

fn main(rt: HostRuntime) -> io::Result<()> {
    listing_io::run(
        Edition::First,
        Pieces::Frames,
        &mut rt.stdin(),
        &mut rt.stdout(),
    )
}
