//! User-defined types: the examples of docs/OWN_TYPES.md and docs/BY_HAND.md.
#![tactic(auto)]

pub mod arena;
pub mod arenas;
pub mod batch;
pub mod book;
pub mod code;
pub mod contact;
pub mod either;
pub mod event;
pub mod foo;
pub mod framed;
pub mod kind;
pub mod message;
pub mod never;
pub mod note;
pub mod pair;
pub mod report;
pub mod requests;
pub mod table;
pub mod track;
pub mod tree;
