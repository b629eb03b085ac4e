// What a record reports, by the edition named.
#![tactic(auto)]

ghost use Rattle.std.specs.Prelude.{◌≡◌};
ghost use Rattle.report.specs.Report.{reported_by, report_of};

use frame::{Body, Edition, Record};

// A place with its three doubles, a cancellation, areas only, nothing, area safety information, which has no data, or the writer's refusal of the record.
#[derive(Clone, Copy)]
pub enum Reported {
    Place {
        latitude: f64,
        longitude: f64,
        depth: f64,
    },
    Cancellation,
    AreasOnly,
    Nothing,
    Safety,
    Refused(u8),
}

// What a legal record reports, by its body.
fn report_by(body: Body, message: Record) -> Reported
    ensures { result ≡ reported_by body message }
{
    match body {
        Body::AreaPage => Reported::AreasOnly,
        Body::PlacePage => Reported::Place {
            latitude: place_images::degrees(message.south, message.latitude),
            longitude: place_images::degrees(message.west, message.longitude),
            depth: place_images::kilometres(message.depth),
        },
        Body::CancelPage => Reported::Cancellation,
        Body::SafetyDetails => Reported::Safety,
        Body::NoInformation => Reported::Nothing,
    }
}

// What any record reports.
pub fn report(edition: Edition, message: Record) -> Reported
    ensures { result ≡ report_of edition message }
{
    let refusal = frame_legality::record_refusal(edition, message);
    if refusal != 0 {
        return Reported::Refused(refusal);
    }
    report_by(frame_legality::record_body(edition, message), message)
}
