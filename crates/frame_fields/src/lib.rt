// A record, the list of its fields, and its origin.
#![tactic(auto)]

ghost use Rattle.std.specs.Prelude.{◌≡◌, length};
ghost use Rattle.frame.specs.Fields.{field_count, fields, no_origin, record_from};

use frame::{FIELDS, Origin, Record, Tuner};

// The fields, in the order of the record.
pub fn fields_of(contents: Record) -> [u64; FIELDS]
    ensures { result ≡ fields contents }
{
    [
        contents.reference,
        contents.pattern,
        contents.identification,
        contents.update,
        contents.time,
        contents.page,
        contents.areas,
        contents.total,
        contents.item,
        contents.number,
        contents.kind,
        contents.south,
        contents.latitude,
        contents.west,
        contents.longitude,
        contents.depth,
        contents.occurred,
        contents.broadcaster,
        contents.region,
    ]
}

// The origin of a record that was read from no frame.
pub fn no_origin() -> Origin
    ensures { result ≡ no_origin }
{
    Origin {
        tuner: Tuner::None,
        repaired: 0,
    }
}

// The record that has these fields, from that origin. It requires that there are as many as a record has: its callers have tested that, or lend an array.
pub fn record_of(origin: Origin, v: &[u64]) -> Record
    requires { length v.now ≡ field_count }
    ensures { result ≡ record_from origin v.now }
{
    Record {
        reference: v[0],
        pattern: v[1],
        identification: v[2],
        update: v[3],
        time: v[4],
        page: v[5],
        areas: v[6],
        total: v[7],
        item: v[8],
        number: v[9],
        kind: v[10],
        south: v[11],
        latitude: v[12],
        west: v[13],
        longitude: v[14],
        depth: v[15],
        occurred: v[16],
        broadcaster: v[17],
        region: v[18],
        origin,
    }
}
