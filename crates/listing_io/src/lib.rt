// The listing of the pieces that a reader gives, on a writer, by the edition named and by what the input is made of. What is read, and the text that is
// written, are proved in `listing_turns` and `listing_pieces`; here is only the reading and writing, 65,520 bytes at a time, so that the system is asked
// seldom.
#![tactic(auto)]

ghost use Rattle.std.specs.Prelude.{◌≡◌, ◌≤◌, length, take, IfOk, OnOk, IfSome};
ghost use Rattle.std.specs.Io.KnownBytes.{Appends};
ghost use Rattle.listing.specs.Lines.{listing_of};
ghost use Rattle.listing_io.specs.Reading.{TurnMade, Follows};

use frame::Edition;
use listing::Pieces;
use listing_turns::Turn;
use std::io;
use std::io::{Read, Write};

// 65,536 zeros: no turn wants more.
fn input_buffer() -> [u8; 65536]
    ensures { 65536 ≡ length result }
{
    [0; 65536]
}

// 32 bytes for each of 2,520 lines, and for the last: no turn writes more.
fn text_buffer() -> [u8; 80672]
    ensures { 80672 ≡ length result }
{
    [0; 80672]
}

// One turn: reads what is wanted, lists it, and writes the text.
fn next<R: Read, W: Write>(
    edition: Edition,
    pieces: Pieces,
    before: Turn,
    input: &mut [u8],
    out: &mut [u8],
    from: &mut R,
    to: &mut W,
) -> io::Result<Turn>
    requires { before.wanted ≤ length input.old }
    ensures made { IfOk result (λ turn. TurnMade edition pieces before input.new out.old out.new turn) }
    ensures follows { IfOk result (λ turn. Follows edition pieces before (R.remaining from.old) (R.remaining from.new) out.old out.new turn) }
    ensures text { IfOk result (λ turn. Appends (W.contents to.old) (W.contents to.new) (take turn.written out.new)) }
{
    let got = input_io::read(before.wanted, input, from)?;
    let turn = listing_pieces::list_piece(edition, pieces, before.listed, &input[..got], out);
    let written = turn.written;
    to.write_all(&out[..written])?;
    Ok(turn)
}

// The listing: turns, while something is wanted. Where the reader's bytes are known, what is written is the listing of them all.
pub fn run<R: Read, W: Write>(
    edition: Edition,
    pieces: Pieces,
    from: &mut R,
    to: &mut W,
) -> io::Result<()>
    ensures { OnOk result (IfSome (R.remaining from.old) (λ s. Appends (W.contents to.old) (W.contents to.new) (listing_of edition pieces s))) }
{
    let mut input = input_buffer();
    let mut out = text_buffer();
    let mut turn = listing_turns::start();
    while turn.wanted != 0 {
        turn = next(edition, pieces, turn, &mut input, &mut out, from, to)?;
    }
    Ok(())
}
