// Places over plain numbers and slices, as a C program can call them: the edition is named by its number.
#![tactic(auto)]

ghost use Rattle.std.specs.Prelude.{◌≡◌};
ghost use Rattle.abi_edition.specs.Edition.{edition_of};
ghost use Rattle.abi_place.specs.Place.{report_status, report_place, desk_status, desk_fields};

use abi_record::VALUES;
use place::{Conversion, Place};
use report::Reported;

// What a record reports: the case, and of a place its latitude, longitude and depth.
pub fn report(edition: u32, values: &[u64], doubles: &mut [f64]) -> u32
    ensures status { result ≡ report_status (edition_of edition) values.now doubles.old }
    ensures doubles { doubles.new ≡ report_place (edition_of edition) values.now doubles.old }
{
    if values.len() != VALUES {
        return abi::status(1, 0);
    }
    if doubles.len() != 3 {
        return abi::status(1, 0);
    }
    match report::report(
        abi_edition::edition_of(edition),
        abi_record::record_at(values),
    ) {
        Reported::Place {
            latitude,
            longitude,
            depth,
        } => {
            doubles[0] = latitude;
            doubles[1] = longitude;
            doubles[2] = depth;
            abi::status(0, 1)
        }
        Reported::Cancellation => abi::status(0, 2),
        Reported::AreasOnly => abi::status(0, 3),
        Reported::Nothing => abi::status(0, 0),
        Reported::Safety => abi::status(0, 4),
        Reported::Refused(number) => abi::status(number, 0),
    }
}

// The field values of the desk's place: south, latitude, west, longitude, depth.
pub fn desk(latitude: f64, longitude: f64, depth: f64, fields: &mut [u64]) -> u32
    ensures status { result ≡ desk_status latitude longitude depth fields.old }
    ensures fields { fields.new ≡ desk_fields latitude longitude depth fields.old }
{
    if fields.len() != 5 {
        return abi::status(1, 0);
    }
    match place_desk::fields_of(Place {
        latitude,
        longitude,
        depth,
    }) {
        Conversion::Converted(f) => {
            fields[0] = f.south;
            fields[1] = f.latitude;
            fields[2] = f.west;
            fields[3] = f.longitude;
            fields[4] = f.depth;
            abi::status(0, 0)
        }
        Conversion::Refused(number) => abi::status(number, 0),
    }
}
