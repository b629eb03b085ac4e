// The listing: a line of text for each piece of the input, and a last line with the count. The rules are in specs/; `listing_lines` and
// `listing_writer` write it.
#![tactic(auto)]

ghost use Rattle.std.specs.Prelude.{◌≡◌};
ghost use Rattle.listing.specs.Lines.{piece_size, piece_count};

// What an input is made of.
#[derive(Clone, Copy)]
pub enum Pieces {
    // document 01: frames of 26 bytes
    Frames,
    // document 02, d): frames, each with a mark for each of its bits behind it, 52 bytes together
    MarkedFrames,
}

// How many bytes a piece has.
pub fn piece_size(pieces: Pieces) -> usize
    ensures { result ≡ piece_size pieces }
{
    match pieces {
        Pieces::Frames => 26,
        Pieces::MarkedFrames => 52,
    }
}

// How many pieces are in n bytes, a short last piece counted.
pub fn piece_count(pieces: Pieces, n: usize) -> usize
    ensures { result ≡ piece_count pieces n }
{
    let size = piece_size(pieces);
    if n % size == 0 {
        return n / size;
    }
    n / size + 1
}
