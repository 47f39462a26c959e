//! What follows from the definitions of `bincode_spec`, for every type and every format.
#![tactic(auto)]
