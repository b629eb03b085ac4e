// The follower and the captures over plain numbers and slices, as a C program can call them: the edition is named by its number.
#![tactic(auto)]

ghost use Rattle.std.specs.Prelude.{◌≡◌, ◌<◌};
ghost use Rattle.follower.specs.Follow.{event_number};
ghost use Rattle.abi.specs.Status.{status_of};
ghost use Rattle.abi_edition.specs.Edition.{edition_of};
ghost use Rattle.abi_receiver.specs.Receiver.{state_number, state_of, event_case, step_status, follow_status, capture_source, capture_numbers};

use follower::{Event, Follower, Step};

fn state_number(state: Follower) -> u32
    ensures { result ≡ state_number state }
{
    match state {
        Follower::Quiet => 0,
        Follower::Active(kind, update) => {
            4 * follower_events::kind_number(kind) + (update % 4) as u32
        }
    }
}

// A number that no state has is taken for quiet.
fn state_of(number: u32) -> Follower
    ensures { result ≡ state_of number }
{
    if number < 4 {
        return Follower::Quiet;
    }
    if number <= 19 {
        return Follower::Active(follower_events::kind_at(number / 4), (number % 4) as u64);
    }
    Follower::Quiet
}

fn event_status(event: Event) -> u32
    ensures status { result ≡ status_of (event_number event) (event_case event) }
    ensures small { result < 65536 }
{
    match event {
        Event::Quiet => abi::status(0, 0),
        Event::Ended => abi::status(0, 1),
        Event::Begins => abi::status(0, 2),
        Event::Same => abi::status(0, 3),
        Event::Changed => abi::status(0, 4),
        Event::Skipped => abi::status(0, 5),
        Event::Refused(number) => abi::status(number, 6),
    }
}

fn step_status(step: Step) -> u32
    ensures { result ≡ step_status step }
{
    let event = step.event;
    let next = step.next;
    event_status(event) + 65536 * state_number(next)
}

// Follows a frame from a state.
pub fn follow(edition: u32, state: u32, frame: &[u8]) -> u32
    ensures { result ≡ follow_status (edition_of edition) state frame.now }
{
    step_status(frame_follower::step(abi_edition::edition_of(edition), state_of(state), frame))
}

// The tuner that frame n is taken from.
pub fn capture_source(edition: u32, main: &[u8], spare: &[u8], n: u64) -> u32
    ensures { result ≡ capture_source (edition_of edition) main.now spare.now n }
{
    abi_tuner::tuner_number(capture::source(
        abi_edition::edition_of(edition),
        main,
        spare,
        n as usize,
    ))
}

// Both tuners' numbers for frame n.
pub fn capture_numbers(edition: u32, main: &[u8], spare: &[u8], n: u64) -> u32
    ensures { result ≡ capture_numbers (edition_of edition) main.now spare.now n }
{
    let numbers = capture::numbers(abi_edition::edition_of(edition), main, spare, n as usize);
    abi::status(numbers.main, numbers.spare)
}
