// Whether a record is legal by the edition named: the body it has, and its own refusals, 6, 10 and 9, which the writer and the report give.
#![tactic(auto)]

ghost use Rattle.std.specs.Prelude.{◌≡◌};
ghost use Rattle.frame.specs.Fields.{record_body, too_wide};
ghost use Rattle.frame.specs.Write.{record_refusal};

use frame::{Body, Edition, Record};

// The body that a record has.
pub fn record_body(edition: Edition, contents: Record) -> Body
    ensures { result ≡ record_body edition contents }
{
    frame_kinds::body_of(
        frame_kinds::class_of(edition, contents.identification),
        contents.page,
        contents.kind,
    )
}

// A field is wider than its place, or not 0 where none is left free.
fn too_wide(edition: Edition, contents: Record) -> bool
    ensures { result ≡ too_wide edition contents }
{
    let ws = frame_bodies::field_widths(record_body(edition, contents));
    let vs = frame_fields::fields_of(contents);
    !bit_layouts::fits_all(&ws, &vs)
}

// The refusal that a record itself is given, 0 where it is legal.
pub fn record_refusal(edition: Edition, contents: Record) -> u8
    ensures { result ≡ record_refusal edition contents }
{
    if frame_kinds::is_undefined(frame_kinds::class_of(edition, contents.identification)) {
        return 6;
    }
    if too_wide(edition, contents) {
        return 10;
    }
    if frame_kinds::over_limit(
        record_body(edition, contents),
        contents.latitude,
        contents.longitude,
    ) {
        return 9;
    }
    0
}
