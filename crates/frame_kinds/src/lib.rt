// What an identification announces by the edition named, which body the details have, and which areas a record warns.
#![tactic(auto)]

ghost use Rattle.std.specs.Prelude.{◌≡◌};
ghost use Rattle.frame.specs.Identification.{schedule1, class_of, flags_wrong, is_undefined};
ghost use Rattle.frame.specs.Body.{body_of};
ghost use Rattle.frame.specs.Fields.{over_limit};
ghost use Rattle.frame.specs.Area.{warned_in};

use frame::{Body, Class, Edition, Record};

// Schedule 1: what an identification announces in the first edition, and in every other where it is not 5 or 6.
fn schedule1(identification: u64) -> Class
    ensures { result ≡ schedule1 identification }
{
    if identification <= 3 {
        return Class::Warning;
    }
    if identification == 7 {
        return Class::Silent;
    }
    Class::Undefined
}

pub fn class_of(edition: Edition, identification: u64) -> Class
    ensures { result ≡ class_of edition identification }
{
    match edition {
        Edition::First => schedule1(identification),
        Edition::AreaSafety => {
            if identification == 5 {
                return Class::SafetyInformation;
            }
            if identification == 6 {
                return Class::SafetyInformation;
            }
            schedule1(identification)
        }
    }
}

pub fn body_of(class: Class, page: u64, kind: u64) -> Body
    ensures { result ≡ body_of class page kind }
{
    match class {
        Class::Warning => {
            if page != 1 {
                return Body::AreaPage;
            }
            if kind == 1 {
                return Body::CancelPage;
            }
            Body::PlacePage
        }
        Class::SafetyInformation => Body::SafetyDetails,
        Class::Silent => Body::NoInformation,
        Class::Undefined => Body::NoInformation,
    }
}

pub fn is_undefined(class: Class) -> bool
    ensures { result ≡ is_undefined class }
{
    match class {
        Class::Warning => false,
        Class::SafetyInformation => false,
        Class::Silent => false,
        Class::Undefined => true,
    }
}

// Start/end and update are not as the class asks.
pub fn flags_wrong(class: Class, start: u64, update: u64) -> bool
    ensures { result ≡ flags_wrong class start update }
{
    match class {
        Class::Warning => start != 0,
        Class::SafetyInformation => start != 0,
        Class::Silent => {
            if start != 3 {
                return true;
            }
            update != 3
        }
        Class::Undefined => start != 0,
    }
}

// Latitude or longitude is over its limit, in tenths of a degree.
pub fn over_limit(body: Body, latitude: u64, longitude: u64) -> bool
    ensures { result ≡ over_limit body latitude longitude }
{
    match body {
        Body::AreaPage => false,
        Body::PlacePage => {
            if 900 < latitude {
                return true;
            }
            1800 < longitude
        }
        Body::CancelPage => false,
        Body::SafetyDetails => false,
        Body::NoInformation => false,
    }
}

// Area k of a record is warned: 0 means warned.
pub fn warned(message: Record, area: u64) -> bool
    ensures { result ≡ warned_in message area }
{
    if 3 < message.identification {
        return false;
    }
    if message.page != 0 {
        return false;
    }
    if 55 < area {
        return false;
    }
    message.areas / numbers::pow2(55 - area as usize) % 2 == 0
}
