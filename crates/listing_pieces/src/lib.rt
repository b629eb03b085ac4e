// A turn of the listing, by the edition named and by what the input is made of: a part of the input as lines.
#![tactic(auto)]

ghost use Rattle.std.specs.Prelude.{◌≡◌, length};
ghost use Rattle.listing_turns.specs.Turns.{turn_of, buffer_after};

use frame::Edition;
use listing::Pieces;
use listing_turns::Turn;

// One turn: the lines of a part of the input, after so many pieces, and the last line if nothing more is to be read, at the start of the buffer. If the part
// goes past piece 999,999, or the buffer has not 32 bytes for each line and 32 for the last, the buffer stays as it is, and nothing is to be written or read.
pub fn list_piece(
    edition: Edition,
    pieces: Pieces,
    listed: u32,
    part: &[u8],
    out: &mut [u8],
) -> Turn
    ensures told { result ≡ turn_of edition pieces listed part.now (length out.old) }
    ensures text { out.new ≡ buffer_after edition pieces listed part.now out.old }
{
    let count = listing::piece_count(pieces, part.len());
    if !listing_turns::fits(listed, count, out.len()) {
        return Turn {
            written: 0,
            listed: listed,
            wanted: 0,
        };
    }
    let at = listing_writer::list(edition, pieces, part, listed + 1, out);
    let after = listed + count as u32;
    let wanted = listing_turns::wanted_after(pieces, listed, part.len(), after);
    if wanted != 0 {
        return Turn {
            written: at,
            listed: after,
            wanted: wanted,
        };
    }
    let written = at + listing_lines::end(after, &mut out[at..]);
    Turn {
        written: written,
        listed: after,
        wanted: 0,
    }
}
