// The verdict of a piece of the input, by the edition named and by what the input is made of.
#![tactic(auto)]

ghost use Rattle.std.specs.Prelude.{◌≡◌};
ghost use Rattle.listing.specs.Lines.{verdict_of};

use frame::{Edition, Verdict};
use listing::Pieces;

// The verdict of a piece. The marks of a marked frame stand behind its 26 bytes.
pub fn judge_piece(edition: Edition, pieces: Pieces, piece: &[u8]) -> Verdict
    ensures { result ≡ verdict_of edition pieces piece.now }
{
    match pieces {
        Pieces::Frames => frame_reader::judge(edition, piece),
        Pieces::MarkedFrames => {
            let cut = numbers::smaller(26, piece.len());
            frame_marked_reader::judge_marked(edition, &piece[..cut], &piece[cut..])
        }
    }
}
