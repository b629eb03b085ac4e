// The tuner as a plain number, as a C program tells it and a record over plain numbers holds it.
#![tactic(auto)]

ghost use Rattle.std.specs.Prelude.{◌≡◌};
ghost use Rattle.abi_tuner.specs.Tuner.{tuner_of, tuner_number};

use frame::Tuner;

// A number that no tuner has is taken for none.
pub fn tuner_of(number: u64) -> Tuner
    ensures { result ≡ tuner_of number }
{
    if number == 1 {
        return Tuner::Main;
    }
    if number == 2 {
        return Tuner::Spare;
    }
    Tuner::None
}

// The number of a tuner.
pub fn tuner_number(tuner: Tuner) -> u32
    ensures { result ≡ tuner_number tuner }
{
    match tuner {
        Tuner::None => 0,
        Tuner::Main => 1,
        Tuner::Spare => 2,
    }
}
