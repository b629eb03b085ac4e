// The table of the bodies: how many bits each field of the record has in each, and where they stand. The fields of every body stand in the order of the
// record, with bits fixed at 1 before and after them, so the widths tell where each stands.
#![tactic(auto)]

ghost use Rattle.std.specs.Prelude.{◌≡◌};
ghost use Rattle.frame.specs.Body.{own_update};
ghost use Rattle.frame.specs.Span.{span_of};
ghost use Rattle.frame.specs.Fields.{field_widths};

use frame::{Body, FIELDS, Span};

// How many bits each field of the record has in a body: 0 where it is not left free.
pub fn field_widths(body: Body) -> [usize; FIELDS]
    ensures { result ≡ field_widths body }
{
    match body {
        Body::AreaPage => [1, 1, 3, 2, 31, 1, 56, 0, 0, 0, 0, 0, 0, 0, 0, 0, 0, 0, 0],
        Body::PlacePage => [1, 1, 3, 2, 31, 1, 0, 1, 1, 9, 1, 1, 10, 1, 11, 10, 10, 0, 0],
        Body::CancelPage => [1, 1, 3, 2, 31, 1, 0, 1, 1, 9, 1, 0, 0, 0, 0, 0, 0, 0, 0],
        Body::SafetyDetails => [1, 1, 3, 2, 31, 0, 0, 0, 0, 0, 0, 0, 0, 0, 0, 0, 0, 0, 57],
        Body::NoInformation => [1, 1, 3, 0, 0, 0, 0, 0, 0, 0, 0, 0, 0, 0, 0, 0, 0, 11, 0],
    }
}

// Where a body's fields stand.
pub fn span_of(body: Body) -> Span
    ensures { result ≡ span_of body }
{
    match body {
        Body::AreaPage => Span {
            from: 4,
            to: 7,
            before: 0,
            after: 0,
        },
        Body::PlacePage => Span {
            from: 4,
            to: 17,
            before: 0,
            after: 1,
        },
        Body::CancelPage => Span {
            from: 4,
            to: 11,
            before: 0,
            after: 44,
        },
        Body::SafetyDetails => Span {
            from: 4,
            to: 19,
            before: 0,
            after: 0,
        },
        Body::NoInformation => Span {
            from: 17,
            to: 18,
            before: 4,
            after: 45,
        },
    }
}

// The update, and 0 where the body does not leave it free.
pub fn own_update(body: Body, update: u64) -> u64
    ensures { result ≡ own_update body update }
{
    match body {
        Body::AreaPage => update,
        Body::PlacePage => update,
        Body::CancelPage => update,
        Body::SafetyDetails => update,
        Body::NoInformation => 0,
    }
}
