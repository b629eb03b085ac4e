// Following the update number, by the edition named: the old state goes in by value, the next one comes back with an event.
#![tactic(auto)]

ghost use Rattle.std.specs.Prelude.{◌≡◌};
ghost use Rattle.follower.specs.declared.Follower.TheVariants.{Quiet};
ghost use Rattle.follower.specs.Follow.{information_event, seen_in, seen_of, step_seen};

pub use follower_events::{Event, Kind};
use frame::{Class, Edition, Reading, Record};

// What a frame shows to the follower: information, which is a warning or area safety information, of this kind and with this update number; that there is
// none; or a refusal.
#[derive(Clone, Copy)]
pub enum Seen {
    Information(Kind, u64),
    Silence,
    Refused(u8),
}

// The state: quiet, or information of this kind, with its update number.
#[derive(Clone, Copy)]
pub enum Follower {
    Quiet,
    Active(Kind, u64),
}

#[derive(Clone, Copy)]
pub struct Step {
    pub next: Follower,
    pub event: Event,
}

// The event of information.
fn information_event(state: Follower, kind: Kind, update: u64) -> Event
    ensures { result ≡ information_event state kind update }
{
    match state {
        Follower::Quiet => Event::Begins,
        Follower::Active(held, old) => {
            if follower_events::same_kind(held, kind) {
                return follower_events::change(old, update);
            }
            Event::Begins
        }
    }
}

// What an accepted frame's record shows.
fn seen_in(class: Class, message: Record) -> Seen
    ensures { result ≡ seen_in class message }
{
    match class {
        Class::Warning => Seen::Information(
            follower_events::kind_of(message.identification),
            message.update,
        ),
        Class::SafetyInformation => Seen::Information(
            follower_events::kind_of(message.identification),
            message.update,
        ),
        Class::Silent => Seen::Silence,
        Class::Undefined => Seen::Refused(6),
    }
}

// What a frame shows, as it was read.
pub fn seen_of(edition: Edition, reading: Reading) -> Seen
    ensures { result ≡ seen_of edition reading }
{
    match reading {
        Reading::Refused(n) => Seen::Refused(n),
        Reading::Accepted(message, differing) => seen_in(
            frame_kinds::class_of(edition, message.identification),
            message,
        ),
    }
}

impl Follower {
    pub fn new() -> Self
        ensures { result ≡ Quiet }
    {
        Follower::Quiet // no frame was seen
    }

    pub fn reset(self) -> Self
        ensures { result ≡ Quiet }
    {
        Follower::Quiet // whatever was held
    }

    // What was seen, followed: the state by value, and the next one out with the event.
    pub fn follow(self, seen: Seen) -> Step
        ensures { result ≡ step_seen self seen }
    {
        match seen {
            Seen::Refused(n) => Step {
                next: self,
                event: Event::Refused(n),
            },
            Seen::Silence => match self {
                Follower::Quiet => Step {
                    next: Follower::Quiet,
                    event: Event::Quiet,
                },
                Follower::Active(kind, old) => Step {
                    next: Follower::Quiet,
                    event: Event::Ended,
                },
            },
            Seen::Information(kind, update) => Step {
                next: Follower::Active(kind, update),
                event: information_event(self, kind, update),
            },
        }
    }
}
