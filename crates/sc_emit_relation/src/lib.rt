//! How a state of the machine stands for a state of three-address code, and what it is for code to follow what
//! statements and functions do (a simulation: Leroy, Formal verification of a realistic compiler).
#![tactic(auto)]
