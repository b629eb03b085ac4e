// The desk's place: three doubles become field values exactly when each has the very bits of an allowed field value's image.
#![tactic(auto)]

ghost use Rattle.std.specs.Prelude.{◌≡◌, ◌≤◌};
ghost use Rattle.place.specs.Degrees.{degrees_of, kilometres_of};
ghost use Rattle.place.specs.Desk.{same_bits, value_of, signed_of, conversion_of};
ghost use Rattle.place.specs.Candidate.{truncated, tenths_near};

use place::{Conversion, Fields, Place, SignedTenths};

// The largest depth of a field, in kilometres.
const DEEPEST: u64 = 1023;

// The bits of a NaN are nobody's.
fn same_bits(x: f64, y: f64) -> bool
    ensures { result ≡ same_bits x y }
{
    if x == x {
        if y == y {
            return f64::to_bits(x) == f64::to_bits(y);
        }
    }
    false
}

// The whole part, or 65535 where it is no u64.
fn whole_part(x: f64) -> u64
    ensures { result ≡ truncated x }
{
    if x > -1.0 {
        if x < 18446744073709551616.0 {
            return std::num::truncating_f64_to_u64(x);
        }
    }
    65535
}

// The one number of tenths whose image x can be.
fn tenths_near(flag: u64, x: f64) -> u64
    ensures { result ≡ tenths_near flag x }
{
    if flag == 1 {
        return whole_part(-x * 10.0);
    }
    whole_part(x * 10.0)
}

// The tenths of a degree, at most the limit, whose image with this flag x is.
fn tenths_of(flag: u64, limit: u64, x: f64) -> Option<u64>
    requires { limit ≤ 1800 }
    ensures { result ≡ value_of (degrees_of flag) limit x }
{
    let n = tenths_near(flag, x);
    if limit < n {
        return None;
    }
    same_bits(x, place_images::degrees(flag, n)).then_some(n)
}

// With either flag.
#[tactic(auto, unfolding(place::specs::Desk::signed_of))]
fn signed_of(limit: u64, x: f64) -> Option<SignedTenths>
    requires { limit ≤ 1800 }
    ensures { result ≡ signed_of limit x }
{
    if let Some(tenths) = tenths_of(0, limit, x) {
        return Some(SignedTenths { flag: 0, tenths });
    }
    let tenths = tenths_of(1, limit, x)?;
    Some(SignedTenths { flag: 1, tenths })
}

// The kilometres whose image x is.
fn depth_of(x: f64) -> Option<u64>
    ensures { result ≡ value_of kilometres_of 1023 x }
{
    let n = whole_part(x);
    if DEEPEST < n {
        return None;
    }
    same_bits(x, place_images::kilometres(n)).then_some(n)
}

// The field values of the desk's place, or refusal 11.
#[tactic(auto, unfolding(place::specs::Desk::conversion_of))]
pub fn fields_of(place: Place) -> Conversion
    ensures { result ≡ conversion_of place }
{
    let Some(latitude) = signed_of(900, place.latitude) else {
        return Conversion::Refused(11);
    };
    let Some(longitude) = signed_of(1800, place.longitude) else {
        return Conversion::Refused(11);
    };
    let Some(depth) = depth_of(place.depth) else {
        return Conversion::Refused(11);
    };
    Conversion::Converted(Fields {
        south: latitude.flag,
        latitude: latitude.tenths,
        west: longitude.flag,
        longitude: longitude.tenths,
        depth,
    })
}
