// Which verdicts there are on frames: each refusal and each number of repaired places is that of some frame. It has no function of its own.
#![tactic(auto)]
