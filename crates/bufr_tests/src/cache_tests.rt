//! Tests for the caches that store templates and field specs between messages.

use crate::encode_tests::{document_of, encoded};
use crate::messages::{PLAIN, message_of, text_of};
use crate::runs::Command::{Dump, Encode};
use crate::runs::{Task, run_whole};
use crate::support::{Runtime, assert_same, ok, repeated};
use bufr_text::{Form, encode_by};
use bufr_walk::{SpecCache, Steps, TemplateCache};

/// The number of descriptor lists to encode, which is more than the cache can store.
const LISTS: u16 = 140;

/// Returns the descriptor list with the given index. List 3 is invalid, and the template for list 8
/// has too many cells to be cached.
fn list_of(rt: &impl Runtime, index: u16) -> String {
    let width = (index % 40).saturating_add(128);
    let blocks = (index / 40).saturating_add(2);
    let list = match index {
        3 => String::from_str(rt.alloc(), "063255"),
        8 => String::from_str(rt.alloc(), "101000 031000 300008 001001"),
        _ => format!(in rt.alloc(); "201{width} 012101 10100{blocks} 001001"),
    };
    ok(rt, list)
}

/// Returns a message with the given descriptor list.
fn message_with(rt: &impl Runtime, list: &str) -> Vec<u8> {
    message_of(rt, 1, PLAIN, list, &repeated(rt, b"\x15", 12))
}

/// Returns the dump of a message with the given descriptor list. If the list is invalid, returns a
/// document that contains the list instead.
fn text_for(rt: &impl Runtime, list: &str) -> Vec<u8> {
    let text = run_whole(rt, Dump, &message_with(rt, list));
    if text.output().is_empty() {
        let refused = text_of(rt, 1, PLAIN, list, "063255 1");
        return repeated(rt, refused.as_bytes(), 1);
    }
    repeated(rt, text.output(), 1)
}

fn assert_same_with_cache(rt: &impl Runtime, templates: &mut TemplateCache<'_>, list: &str) {
    let document = document_of(rt, &text_for(rt, list));
    let (alone, count) = encoded(rt, Encode, &document);
    let mut steps = Steps::new();
    let kept = encode_by(
        rt.alloc(),
        &document,
        Form::AsWritten,
        templates,
        &mut steps,
    );
    assert_same(rt, &kept, &alone, &list);
    assert_same(rt, &steps.count(), &count, &list);
}

#[test]
fn encodes_more_descriptor_lists_than_fit_in_cache(rt: HostRuntime) {
    let task = Task::new(&rt, Encode);
    let mut templates = TemplateCache::new(rt.alloc(), &task.b, &task.d);
    for index in 0..LISTS.saturating_mul(2) {
        assert_same_with_cache(&rt, &mut templates, list_of(&rt, index % LISTS).as_str());
    }
    assert_same(&rt, &templates.others(), &127, &"lists");
}

#[test]
fn caches_field_specs_for_at_most_1024_cells(rt: HostRuntime) {
    let task = Task::new(&rt, Encode);
    let mut specs = SpecCache::new(rt.alloc(), &task.b);
    for (cells, room) in [(0, 0), (3, 3), (1024, 1024), (1025, 1024), (0, 0)] {
        ok(&rt, specs.reset(cells));
        assert_same(&rt, &specs.cells(), &room, &cells);
    }
}
