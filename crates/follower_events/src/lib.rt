// The kinds of what is announced, and how an update number went, as events.
#![tactic(auto)]

ghost use Rattle.std.specs.Prelude.{◌≡◌};
ghost use Rattle.follower_events.specs.Events.{kind_of, kind_number, kind_at, same_kind, change_of};

// Identification 0 and 1 are a real warning, 2 and 3 a test of it; 5 is area safety information, 6 a test of that.
#[derive(Clone, Copy)]
pub enum Kind {
    Real,
    Test,
    Safety,
    SafetyTest,
}

#[derive(Clone, Copy)]
pub enum Event {
    Quiet,
    Ended,
    Begins,
    Same,
    Changed,
    Skipped,
    Refused(u8),
}

// The kind of an identification that has information; of another it is not asked.
pub fn kind_of(identification: u64) -> Kind
    ensures { result ≡ kind_of identification }
{
    if identification <= 1 {
        return Kind::Real;
    }
    if identification <= 3 {
        return Kind::Test;
    }
    if identification == 5 {
        return Kind::Safety;
    }
    Kind::SafetyTest
}

// A number for each kind.
pub fn kind_number(kind: Kind) -> u32
    ensures { result ≡ kind_number kind }
{
    match kind {
        Kind::Real => 1,
        Kind::Test => 2,
        Kind::Safety => 3,
        Kind::SafetyTest => 4,
    }
}

// The kind that has this number; any other is taken for the last one's.
pub fn kind_at(number: u32) -> Kind
    ensures { result ≡ kind_at number }
{
    if number == 1 {
        return Kind::Real;
    }
    if number == 2 {
        return Kind::Test;
    }
    if number == 3 {
        return Kind::Safety;
    }
    Kind::SafetyTest
}

// How the update number went. The old one may be any number, so that it is cut down before 1 is added.
pub fn change(old: u64, new: u64) -> Event
    ensures { result ≡ change_of old new }
{
    if new == old {
        return Event::Same;
    }
    if new == (old % 4 + 1) % 4 {
        return Event::Changed;
    }
    Event::Skipped
}

pub fn same_kind(one: Kind, other: Kind) -> bool
    ensures { result ≡ same_kind one other }
{
    kind_number(one) == kind_number(other)
}
