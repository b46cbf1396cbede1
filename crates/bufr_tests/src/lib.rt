//! Tests for the public functions in the library crates.
//!
//! These tests are in a separate crate because tests are proved together with the crate that
//! contains them.
#![tactic(auto)]

#[cfg(test)]
mod bits_tests;
#[cfg(test)]
mod cache_tests;
#[cfg(test)]
mod encode_tests;
#[cfg(test)]
mod fill_tests;
#[cfg(test)]
mod finish_tests;
#[cfg(test)]
mod frame_tests;
#[cfg(test)]
mod growth_tests;
#[cfg(test)]
mod messages;
#[cfg(test)]
mod other_programs;
#[cfg(test)]
mod program_tests;
#[cfg(test)]
mod reader_tests;
#[cfg(test)]
mod run_tests;
#[cfg(test)]
mod runs;
#[cfg(test)]
mod support;
#[cfg(test)]
mod tables_tests;
#[cfg(test)]
mod template_tests;
#[cfg(test)]
mod text_tests;
#[cfg(test)]
mod walk_tests;
