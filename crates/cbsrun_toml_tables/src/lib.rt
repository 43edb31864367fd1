//! The tables of a TOML document: tests of their keys and values, the parts of a plan that they spell, and faults with
//! their places.
#![tactic(auto)]

mod documents;
mod fault;
mod fields;
mod memory;
mod plans;

pub use documents::{at, document, document_within, faulty};
pub use fault::{FileFault, FileKind, Place};
pub use fields::{
    all_integers, below, integer, integer_at, items, items_at, members, natural, number, only_keys,
    optional, optional_integer, optional_integer_at, optional_within, pair, pair_at, present,
    sized, table_with, text, text_at, units, with_keys, within,
};
pub use memory::{Bounded, MEMORY, wants_within};
pub use plans::{bound_of, mode_of, reservation};
