// The layouts of a header's two parts as tables. Nothing here is an entry point of the box.
#![tactic(auto)]

mod ac;

ghost use Rattle.std.specs.Prelude.{◌≡◌};
ghost use Rattle.bits.specs.Segment.{free_widths};
ghost use Rattle.header.specs.Layout.{front_layout, extension_layout};

pub use ac::ac_ones;
use bits::Segment;
use bits::Segment::{Field, Ones};

// The front, 120 segments: the one after the validity of stream 15 is fixed.
pub fn front_layout() -> [Segment; 120]
    ensures { result ≡ front_layout }
{
    let mut layout = [Field(4); 120]; // slots 2 to 53, which come last
    layout[0] = Field(32); // packet header
    layout[1] = Field(16); // multiplex frame sync
    layout[2] = Field(3); // change number
    layout[3] = Field(1); // method
    layout[4] = Field(4); // multiplex form
    layout[5..20].fill(Field(1)); // validity of streams 1 to 15
    layout[20] = Ones(1); // the undefined bit of the slot information
    layout[21..51].fill(Field(16)); // stream id and network id of streams 1 to 15
    layout[51..66].fill(Field(2)); // reception states of streams 1 to 15
    layout[66] = Field(1); // undefined, carried
    layout[67] = Field(1); // emergency start
    layout
}

// The extension, 86 segments: the AC bits, and then those that are fixed.
pub fn extension_layout() -> [Segment; 86]
    ensures { result ≡ extension_layout }
{
    let mut layout = [Ones(8); 86];
    layout[..25].fill(Field(8));
    layout[25] = Field(4); // the last AC bits
    layout[26] = Ones(4); // the rest of their byte
    layout
}

// The widths of the front's fields alone.
pub fn front_free() -> [usize; 119]
    ensures { result ≡ free_widths front_layout }
{
    [
        32, 16, 3, 1, 4, 1, 1, 1, 1, 1, 1, 1, 1, 1, 1, 1, 1, 1, 1, 1, 16, 16, 16, 16, 16, 16, 16,
        16, 16, 16, 16, 16, 16, 16, 16, 16, 16, 16, 16, 16, 16, 16, 16, 16, 16, 16, 16, 16, 16, 16,
        2, 2, 2, 2, 2, 2, 2, 2, 2, 2, 2, 2, 2, 2, 2, 1, 1, 4, 4, 4, 4, 4, 4, 4, 4, 4, 4, 4, 4, 4,
        4, 4, 4, 4, 4, 4, 4, 4, 4, 4, 4, 4, 4, 4, 4, 4, 4, 4, 4, 4, 4, 4, 4, 4, 4, 4, 4, 4, 4, 4,
        4, 4, 4, 4, 4, 4, 4, 4, 4, // slot 53
    ]
}

// The widths of the extension's fields alone, which are the 204 AC bits.
pub fn extension_free() -> [usize; 26]
    ensures { result ≡ free_widths extension_layout }
{
    [
        8, 8, 8, 8, 8, 8, 8, 8, 8, 8, 8, 8, 8, 8, 8, 8, 8, 8, 8, 8, 8, 8, 8, 8, 8, 4, // 25 bytes and 4 bits are the 204 AC bits
    ]
}
