// Polynomials over GF(2), as definitions and laws that the codes stand on. It has no function of its own.
#![tactic(auto)]
