// The tables of the (187,105) code as data, each with its rule: the check table and the generator's coefficients.
#![tactic(auto)]

pub mod check_rows;
pub mod generator;
