// A record that is made at the desk: the place page of a warning, with a hand-typed place, judged by the edition named. No tuner received it.
#![tactic(auto)]

ghost use Rattle.std.specs.Prelude.{◌≡◌};
ghost use Rattle.desk_record.specs.DeskRecord.{place_record, desk_record_of};

use frame::{Edition, Record};
use place::{Conversion, Fields, Place};

// What the desk gives beside the place: the record's fields of the same names.
#[derive(Clone, Copy)]
pub struct DeskWarning {
    pub identification: u64,
    pub update: u64,
    pub time: u64,
    pub total: u64,
    pub item: u64,
    pub number: u64,
    pub occurred: u64,
}

// What making it answers: the record, or the refusal.
#[derive(Clone, Copy)]
pub enum DeskRecord {
    Made(Record),
    Refused(u8),
}

// The record of page 1 and kind 0 that has these.
fn place_record(warning: DeskWarning, fields: Fields) -> Record
    ensures { result ≡ place_record warning fields }
{
    let origin = frame_fields::no_origin();
    Record {
        reference: 0,
        pattern: 0,
        identification: warning.identification,
        update: warning.update,
        time: warning.time,
        page: 1,
        areas: 0,
        total: warning.total,
        item: warning.item,
        number: warning.number,
        kind: 0,
        south: fields.south,
        latitude: fields.latitude,
        west: fields.west,
        longitude: fields.longitude,
        depth: fields.depth,
        occurred: warning.occurred,
        broadcaster: 0,
        region: 0,
        origin,
    }
}

// The record of what the desk gives, or refusal 11, then the writer's 6 or 10.
pub fn make(edition: Edition, warning: DeskWarning, place: Place) -> DeskRecord
    ensures { result ≡ desk_record_of edition warning place }
{
    match place_desk::fields_of(place) {
        Conversion::Converted(fields) => {
            let contents = place_record(warning, fields);
            let number = frame_legality::record_refusal(edition, contents);
            if number != 0 {
                return DeskRecord::Refused(number);
            }
            DeskRecord::Made(contents)
        }
        Conversion::Refused(number) => DeskRecord::Refused(number),
    }
}
