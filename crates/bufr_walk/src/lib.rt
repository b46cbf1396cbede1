//! This crate reads the data of FM 94 BUFR messages by walking over their templates.
//!
//! [`read_message`] reads the data of a message, and [`Reading::show`] passes each subset and item
//! to a [`Visitor`]. Higher-level crates use visitors to write dumps.
//!
//! [`walk`] traverses a template and processes each field through the [`Fields`] trait. [`PlainIn`]
//! and [`PackedIn`] implement this trait to read data, and the writers in `bufr_fill` implement it
//! to write data. [`TemplateCache`] caches recently used templates and their field specs. A spec
//! describes how a field is encoded. [`read_by`], [`Reading::show_by`] and [`walk_by`] use cached
//! specs.
#![tactic(auto)]

mod compressed;
mod fault;
mod item_index;
pub mod laws;
mod lists;
mod operators;
mod plain;
mod reading;
mod references;
mod spec;
mod spec_cache;
mod visitor;
mod walker;

pub use compressed::{MAX_VALUES, PackedIn, PackedItems};
pub use fault::{DEFINING, DataFault, ShowFault, Spot, TOO_MANY_VALUES, WIDTH, WalkFault};
pub use lists::TemplateCache;
pub use plain::PlainIn;
pub use reading::{Reading, read_by, read_message};
pub use spec::{Role, Spec, Taken, TurnRefusal};
pub use spec_cache::SpecCache;
pub use visitor::{ItemView, Value, Visitor};
pub use walker::{Fields, Steps, WalkStop, walk, walk_by};
