// Repairs the frames on standard input, 26 bytes each, and prints what it did.
#![tactic(auto)]

use std::io;

fn main(rt: HostRuntime) -> io::Result<()> {
    frame_text::run(
        frame_text::Question::Repair,
        &mut rt.stdin(),
        &mut rt.stdout(),
    )
}
