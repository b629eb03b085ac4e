// Reads the frames on standard input, 26 bytes each, by the first edition, and prints what each says.
#![tactic(auto)]

use frame::Edition;
use std::io;

fn main(rt: HostRuntime) -> io::Result<()> {
    frame_text::run(
        frame_text::Question::Read(Edition::First),
        &mut rt.stdin(),
        &mut rt.stdout(),
    )
}
