// A frame laid into a header and taken out of it, as a C program can call them: the edition is named by its number.
#![tactic(auto)]

ghost use Rattle.std.specs.Prelude.{◌≡◌};
ghost use Rattle.dsc.specs.Marks.{unmarked, marked};
ghost use Rattle.header_laying.specs.Laying.{lay_in_of, take_out_of};
ghost use Rattle.abi_edition.specs.Edition.{edition_of};
ghost use Rattle.abi_laying.specs.Laying.{lay_in_status, take_out_status};

// Lays the repaired frame into a header.
pub fn lay_in(edition: u32, header: &mut [u8], frame: &[u8]) -> u32
    ensures status { result ≡ lay_in_status (edition_of edition) unmarked header.old frame.now }
    ensures header { header.new ≡ lay_in_of (edition_of edition) unmarked header.old frame.now }
{
    abi::status(
        header_inserter::lay_in(abi_edition::edition_of(edition), header, frame),
        0,
    )
}

// Lays a frame that comes with marks into a header.
pub fn lay_in_marked(edition: u32, header: &mut [u8], frame: &[u8], marks: &[u8]) -> u32
    ensures status { result ≡ lay_in_status (edition_of edition) (marked marks.now) header.old frame.now }
    ensures header { header.new ≡ lay_in_of (edition_of edition) (marked marks.now) header.old frame.now }
{
    let named = abi_edition::edition_of(edition);
    let laid = header_inserter::lay_in_marked(named, header, frame, marks);
    abi::status(laid, 0)
}

// Takes a frame out of a header.
pub fn take_out(header: &mut [u8]) -> u32
    ensures status { result ≡ take_out_status header.old }
    ensures header { header.new ≡ take_out_of header.old }
{
    abi::status(header_inserter::take_out(header), 0)
}
