// Bits of a row of bytes, fields of them, layouts and tables of refusals, as definitions and laws, and what a segment of a layout is.
#![tactic(auto)]

ghost use Rattle.std.specs.Prelude.{◌≡◌};
ghost use Rattle.bits.specs.Segment.{width};

// A segment of a layout: a field of so many bits, or so many bits that are fixed at 1 or at 0. What is read and written has fewer than 64 of them; and a
// table of two bytes a segment is made faster than one of wider numbers.
#[derive(Clone, Copy, PartialEq, Eq)]
pub enum Segment {
    Field(u8),
    Ones(u8),
    Zeros(u8),
}

impl Segment {
    pub fn width(self) -> usize
        ensures { result ≡ width self }
    {
        match self {
            Segment::Field(width) => usize::from(width),
            Segment::Ones(width) => usize::from(width),
            Segment::Zeros(width) => usize::from(width),
        }
    }
}
