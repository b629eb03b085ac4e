// The edition as a plain number, as a C program names it.
#![tactic(auto)]

ghost use Rattle.std.specs.Prelude.{◌≡◌};
ghost use Rattle.abi_edition.specs.Edition.{edition_of};

use frame::Edition;

// A number that no edition has is taken for the first.
pub fn edition_of(number: u32) -> Edition
    ensures { result ≡ edition_of number }
{
    if number == 1 {
        return Edition::AreaSafety;
    }
    Edition::First
}
