//! What is promised: the formats of types, and what reading and writing return and leave. The definitions are in
//! `specs`.
#![tactic(auto)]
