// A frame laid into a header, and taken out: what the two answer. It has no functions: the rules are in specs/, and `header_inserter` computes them.
#![tactic(auto)]
