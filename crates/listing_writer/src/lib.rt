// The listing of an input, by the edition named and by what the input is made of: a line of text for each piece.
#![tactic(auto)]

ghost use Rattle.std.specs.Prelude.{◌≡◌, length};
ghost use Rattle.listing.specs.Lines.{list_count, list_of};

use frame::Edition;
use listing::Pieces;

// The lines of all pieces of the input, numbered from the first on, at the start of the buffer; how many bytes they are. A buffer that has not 32 bytes for
// each piece is left as it is, and the answer is 0.
pub fn list(edition: Edition, pieces: Pieces, input: &[u8], first: u32, out: &mut [u8]) -> usize
    ensures count { result ≡ list_count edition pieces input.now first (length out.old) }
    ensures text { out.new ≡ list_of edition pieces input.now first out.old }
{
    if out.len() / 32 < listing::piece_count(pieces, input.len()) {
        return 0;
    }
    let mut number = first as u64;
    let mut at = 0;
    for piece in input.chunks(listing::piece_size(pieces)) {
        let verdict = listing_verdicts::judge_piece(edition, pieces, piece);
        at = listing_lines::put_line(out, at, number, verdict);
        number += 1;
    }
    at
}
