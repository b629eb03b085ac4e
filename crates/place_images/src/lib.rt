// Field values as doubles.
#![tactic(auto)]

ghost use Rattle.std.specs.Prelude.{◌≡◌};
ghost use Rattle.place.specs.Degrees.{degrees_of, kilometres_of};

// Tenths of a degree as a double divided by ten, rounded once; the flag 1, south or west, negates the quotient.
pub fn degrees(flag: u64, tenths: u64) -> f64
    ensures { result ≡ degrees_of flag tenths }
{
    let quotient = std::num::nearest_u64_to_f64(tenths) / 10.0;
    if flag == 1 { -quotient } else { quotient }
}

// The kilometres as a double.
pub fn kilometres(depth: u64) -> f64
    ensures { result ≡ kilometres_of depth }
{
    std::num::nearest_u64_to_f64(depth)
}
