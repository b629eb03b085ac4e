// Whether the record of a header is legal: its own refusals, 10, 12, 14 and 15, which the writer gives.
#![tactic(auto)]

ghost use Rattle.std.specs.Prelude.{◌≡◌};
ghost use Rattle.header.specs.Tests.{too_wide};
ghost use Rattle.header.specs.Header.{record_refusal};

use header::Header;

// A field is wider than its place.
fn too_wide(header: Header) -> bool
    ensures { result ≡ too_wide header }
{
    let front = header_fields::front_fields(header.front);
    let front_widths = header_tables::front_free();
    if !bit_layouts::fits_all(&front_widths, &front) {
        return true;
    }
    let extension = header.extension;
    let ac = extension.ac;
    let ac_widths = header_tables::extension_free();
    !bit_layouts::fits_all(&ac_widths, &ac)
}

// A record's refusal, or 0 where it is legal.
pub fn record_refusal(header: Header) -> u8
    ensures { result ≡ record_refusal header }
{
    if too_wide(header) {
        return 10;
    }
    let front = header.front;
    if front.packet >> 24 != 0x47 {
        return 12;
    }
    if front.form != 1 {
        return 14;
    }
    let states = front.states;
    if header_arrays::has(&states, 3) {
        return 15;
    }
    0
}
