// The listing in turns: a part of the input is read, its lines are written, and so on until nothing is left to read. The rules are in specs/; here are the
// numbers of a turn, and `listing_pieces` lists a piece.
#![tactic(auto)]

ghost use Rattle.std.specs.Prelude.{◌≡◌, ◌+◌};
ghost use Rattle.listing.specs.Lines.{piece_count};
ghost use Rattle.listing_turns.specs.Turns.{per_turn, turn_bytes, wanted_after, fits, start};

use listing::Pieces;

// What a turn answers: how many bytes of the buffer are to be written, how many pieces are listed by now, and how many bytes are to be read next, 0 where the
// listing is over.
#[derive(Clone, Copy)]
pub struct Turn {
    pub written: usize,
    pub listed: u32,
    pub wanted: usize,
}

// How many pieces a turn reads at most: those of 65,520 bytes.
fn per_turn(pieces: Pieces) -> usize
    ensures { result ≡ per_turn pieces }
{
    match pieces {
        Pieces::Frames => 2520,
        Pieces::MarkedFrames => 1260,
    }
}

// How many bytes are read after so many pieces: those of a whole turn, or of the pieces that are left to 999,999.
fn turn_bytes(pieces: Pieces, listed: u32) -> usize
    ensures { result ≡ turn_bytes pieces listed }
{
    if listed > 999999 {
        return 0;
    }
    let left = (999999 - listed) as usize;
    if left < per_turn(pieces) {
        return listing::piece_size(pieces) * left;
    }
    65520
}

// How many bytes are to be read after len bytes, with which `after` pieces are listed: none where they are fewer than were asked for, since the input has
// ended. It requires that `after` is that number, which its caller has counted already.
pub fn wanted_after(pieces: Pieces, listed: u32, len: usize, after: u32) -> usize
    requires { after ≡ listed + piece_count pieces len }
    ensures { result ≡ wanted_after pieces listed len }
{
    if len < turn_bytes(pieces, listed) {
        return 0;
    }
    turn_bytes(pieces, after)
}

// Whether so many pieces more end at piece 999,999 or before, and their lines and the last have room.
pub fn fits(listed: u32, count: usize, room: usize) -> bool
    ensures { result ≡ fits listed count room }
{
    if listed > 999999 {
        return false;
    }
    if count > (999999 - listed) as usize {
        return false;
    }
    count < room / 32
}

// Before the first turn, which reads 65,520 bytes whatever the pieces are.
pub fn start() -> Turn
    ensures { result ≡ start }
{
    Turn {
        written: 0,
        listed: 0,
        wanted: 65520,
    }
}
