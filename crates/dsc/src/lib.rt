// The (187,105) difference-set cyclic code: code words, check table, what repair and encoder answer, and what is promised of them. The rules
// are in specs/; `dsc_codec` computes them.
#![tactic(auto)]

// What the repair answers: the number of places in which the code word differs from the received bits, or the refusal's number.
#[derive(Clone, Copy)]
pub enum Outcome {
    Repaired(u8),
    Refused(u8),
}

// The outcome, with the repaired word beside it: 26 bytes that hold B17 to B203 at their places and 0 elsewhere, all 0 on a refusal.
#[derive(Clone, Copy)]
pub struct Answer {
    pub outcome: Outcome,
    pub word: [u8; 26],
}
