// Writes a line for each marked frame on standard input, 52 bytes, judged by the first edition, and a last line with their count. The stored input has a clean
// frame with no mark, marks on the generator's places (17, 17 with the last place received as 1, 18, 16 and 15 with the next place received as 1), 8 and 9 hits,
// 9 of which one is marked, 12 and 17 hits under marks, 10 of which 7 are marked, a wrong filler with 18 marks, marks on the synchronising bits with four and
// three of them wrong, 8 hits with marks on everything but B17 to B203, area safety information, and a frame without its marks, which is a short last piece.
#![tactic(auto)]

use frame::Edition;
use listing::Pieces;
use std::io;

fn main(rt: HostRuntime) -> io::Result<()> {
    listing_io::run(
        Edition::First,
        Pieces::MarkedFrames,
        &mut rt.stdin(),
        &mut rt.stdout(),
    )
}
