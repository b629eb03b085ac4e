// The generator, as data.
ghost use Rattle.std.specs.Prelude.{◌≡◌};
ghost use Rattle.dsc.specs.Code.{generator_low};

// The 82 coefficients of the generator below x^82, from x^81 down.
const LOW: [bool; 82] = [
    false, false, false, false, true, true, false, false, false, false, true, false, false, false,
    true, true, false, false, false, false, false, false, false, false, false, true, false, false,
    false, true, false, false, false, true, false, false, false, false, false, false, false, true,
    false, false, false, true, false, true, false, false, false, false, false, false, false, false,
    false, true, false, true, false, false, false, true, false, false, false, false, false, false,
    false, true, false, false, false, false, false, true, false, false, false, true,
];

// Those coefficients, to be taken once for a division and lent on: each index into a constant would copy the whole of it.
pub fn low() -> [bool; 82]
    ensures { result ≡ generator_low }
{
    LOW
}
