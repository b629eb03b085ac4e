// The repair of the protected part as the textbook has it: a word is shifted through a register that divides by the generator, and each bit is
// decided by the majority of 17 check sums taken from the register as it turns. It answers what the shipped repair answers, and is kept plain.
#![tactic(auto)]

ghost use Rattle.std.specs.Prelude.{◌≡◌, length};
ghost use Rattle.dsc.specs.Repair.{repair_of, Repairs};
ghost use Rattle.dsc_shift_register.specs.Register.{register_answer, register_repair_of};

use dsc::Answer;

// The repair of 187 received bits. The majority gives a word for any bits; only the two tests say whether it is the answer.
fn repair_word(received: &[bool]) -> Answer
    requires { length received.now ≡ 187 }
    ensures { result ≡ register_answer received.now }
{
    let g = dsc_tables::generator::low();
    let t = dsc_tables::check_rows::table();
    let w = dsc_majority::decide_word(&g, &t, received);
    if !dsc_shift_register::is_code_word(&g, &w) {
        return dsc_bytes::refused(4);
    }
    let places = dsc_bits::distance(received, &w);
    if 8 < places {
        return dsc_bytes::refused(4);
    }
    dsc_bytes::repaired(&w, places)
}

// The repair asked for alone: of any bytes, it looks only at B17 to B203, and refuses 1, then 4.
pub fn repair(frame: &[u8]) -> Answer
    ensures repairs { Repairs frame.now result × (result ≡ repair_of frame.now) }
    ensures value { result ≡ register_repair_of frame.now }
{
    if frame.len() != 26 {
        return dsc_bytes::refused(1);
    }
    let received = dsc_bytes::received(frame);
    repair_word(&received)
}
