// Document 01's worked examples, in one claim. It has no functions: the claim stands in specs/, its proof in proofs/.
#![tactic(auto)]
