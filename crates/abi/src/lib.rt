// What the functions over plain numbers and slices share, as a C program can call them.
#![tactic(auto)]

ghost use Rattle.std.specs.Prelude.{◌≡◌, length};
ghost use Rattle.abi.specs.Status.{status_of};

// A status: the refusal's number, and what else is told.
pub fn status(number: u8, more: u8) -> u32
    ensures { result ≡ status_of number more }
{
    number as u32 + 256 * (more as u32)
}

// The values of one slice into another of the same length. It requires that, since its callers have tested the length of the buffer that they were lent.
pub fn copy(from: &[u64], to: &mut [u64])
    requires { length from.now ≡ length to.old }
    ensures { to.new ≡ from.now }
{
    to.copy_from_slice(from);
}
