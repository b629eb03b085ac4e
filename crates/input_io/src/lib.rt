// Reading the input of the programs.
#![tactic(auto)]

ghost use Rattle.std.specs.Prelude.{◌≡◌, ◌≤◌, length, take, drop, IfOk};
ghost use Rattle.input_io.specs.Reading.{Takes};

use std::io;
use std::io::Read;

// Reads so many bytes, or those that there are before the input ends. It requires room for them: no turn of the programs
// wants more than their buffer holds. Where a read fails, so does this, and what the buffer then holds in the wanted bytes is
// not to be used; no other error comes.
pub fn read<R: Read>(wanted: usize, input: &mut [u8], from: &mut R) -> io::Result<usize>
    requires { wanted ≤ length input.old }
    ensures rest { drop wanted input.new ≡ drop wanted input.old }
    ensures count { IfOk result (λ n. n ≤ wanted) }
    ensures bytes { IfOk result (λ n. Takes (R.remaining from.old) (R.remaining from.new) wanted (take n input.new)) }
{
    let mut done = 0;
    while done < wanted {
        let got = from.read(&mut input[done..wanted])?;
        if got == 0 {
            break;
        }
        done += got;
    }
    Ok(done)
}
