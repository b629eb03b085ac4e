// A frame followed, by the edition named: it is read, and what it shows moves the follower.
#![tactic(auto)]

ghost use Rattle.std.specs.Prelude.{◌≡◌};
ghost use Rattle.follower.specs.Follow.{step_of};

use follower::{Follower, Step};
use frame::{Edition, Tuner};

// The next state and the event, for any state and any bytes.
pub fn step(edition: Edition, state: Follower, frame: &[u8]) -> Step
    ensures { result ≡ step_of edition state frame.now }
{
    state.follow(follower::seen_of(edition, frame_reader::read(edition, Tuner::None, frame)))
}
