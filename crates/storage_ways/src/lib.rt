//! How each accepted event changes what nodes write, mark, copy and recover, and what stands on the
//! legs: one way for each row of the machine, with what its guards and the rounds tell. Laws of
//! writes and of recovery stand on it.
#![tactic(auto)]
