//! This crate implements the descriptors of FM 94 BUFR and reads Tables B and D from CSV files.
//!
//! A descriptor ([`Fxy`]) is looked up in [`TableB`] if it is an element, or in [`TableD`] if it is
//! a sequence. A descriptor list is expanded into a [`Template`], the tree that describes the data
//! of a message.
#![tactic(auto)]

mod expand;
mod fault;
mod fxy;
mod index;
mod rows;
mod table_b;
mod table_d;
mod template;

pub use fault::{TableFault, TemplateFault};
pub use fxy::Fxy;
pub use table_b::{Entry, Kind, TableB};
pub use table_d::TableD;
pub use template::{Cell, Template};
