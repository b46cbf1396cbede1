//! The walk over the cells of a template. This module also defines the `Fields` trait, the reasons
//! why a walk stops, and the step counter.
ghost use Rattle.std.specs.Prelude.{◌≡◌, ℕ, ◌+◌, ◌-◌, ◌^◌, ◌<◌, Result, Ok, Err, IfOk, ◌≤◌, ◌*◌, ◌++◌, ◌∷◌, [], List, OnOk, OnErr, true, false};
ghost use Rattle.bufr_walk.specs.Prelude.{ticked, Walked, TakesField, counted_item, FieldSpec, IsFor, Taken, after_field, descriptor_of, spec_of, stop_by, inserted_spec, is_reference, IsSpecKey};
ghost use Rattle.arrayvec.specs.ArrayVec.{array_vec_len};
ghost use Rattle.bufr_tables.specs.Prelude.{is_inserted_text, is_legal_operator, places};
ghost use Rattle.bufr_walk.specs.declared.walker.Frame.{Frame};

use crate::operators::{OperatorState, TableField, key_by};
use crate::spec::{Role, Spec, Taken, TurnRefusal};
use crate::spec_cache::{NO_KEY, SpecCache, SpecKey};
use arrayvec::ArrayVec;
use bufr_tables::{Cell, Fxy, TableB, Template};
use std::alloc::Global;
use std::marker::Model;

/// The reason why a walk over a template stopped.
#[derive(Debug, PartialEq, Eq, Drop)]
pub enum WalkStop<E> {
    /// See [`TurnRefusal::Width`].
    Width(Fxy),
    /// See [`TurnRefusal::Defining`].
    Defining(Fxy),
    /// A field could not be read or written. The variant contains the reason.
    Field(E),
    /// Memory ran out before a redefined reference value was stored.
    Memory,
}

impl<E> From<TurnRefusal> for WalkStop<E> {
    ghost from_gives = { λ w e. e ≡ stop_by w };

    fn from(why: TurnRefusal) -> WalkStop<E> {
        match why {
            TurnRefusal::Width(fxy) => WalkStop::Width(fxy),
            TurnRefusal::Defining(fxy) => WalkStop::Defining(fxy),
        }
    }
}

/// The total number of steps in one or more walks, capped at `u64::MAX`. A step processes a
/// descriptor, ends a pass over a group, or reaches the end of the template.
#[derive(Drop)]
pub struct Steps {
    count: u64,
}

impl Model for Steps {
    ghost Value = { ℕ };

    ghost view = { λ s. s.count };
}

impl Steps {
    /// Creates a step counter that starts at 0.
    pub fn new() -> Self
        ensures { result ≡ 0 }
    {
        Steps { count: 0 }
    }

    /// Returns the number of steps counted so far.
    pub fn count(&self) -> u64
        ensures { result ≡ self.now }
    {
        self.count
    }

    /// Adds one step to the count, which is capped at `u64::MAX`.
    pub(crate) fn tick(&mut self)
        ensures { self.new ≡ ticked self.old 1 }
    {
        self.count = self.count.saturating_add(1);
    }
}

/// Data whose fields are read or written by a walk, one field at a time.
pub trait Fields {
    /// The reason why a field cannot be read or written.
    type Fault;

    /// The number of bits used by the fields processed so far.
    ghost used: { Self → ℕ };

    /// Specifies what `take` can return for a field and how a call changes the state.
    ghost takes: { Self → FieldSpec → Result Taken Self.Fault → Self → Type 0 };

    /// Reads or writes the next field, and returns the part of the field's value that affects the
    /// walk. The result is [`Taken::Count`] for a replication factor, [`Taken::Reference`] for a
    /// redefined reference value, and [`Taken::Plain`] for any other field. Each field occupies at
    /// least one bit.
    ///
    /// # Errors
    ///
    /// [`Fields::Fault`] if the field cannot be read or written, in which case the result of
    /// [`Fields::bits`] does not change.
    fn take(&mut self, spec: &Spec) -> Result<Taken, Self::Fault>
        ensures step { takes self.old spec.now result self.new }
        ensures shape { IfOk result (λ t. IsFor spec.now t) };

    /// Returns the number of bits used by the fields processed so far.
    fn bits(&self) -> u64
        ensures { result ≡ used self.now };

    /// Each field that is read or written uses at least one bit.
    ghost advances: { (s : Self) (spec : FieldSpec) (t : Taken) (next : Self)
        → takes s spec (Ok t) next
        → used s < used next };

    /// If a field cannot be read or written, the number of bits used does not change.
    ghost refuses: { (s : Self) (spec : FieldSpec) (e : Self.Fault) (next : Self)
        → takes s spec (Err e) next → used next ≡ used s };
}

impl OperatorState {
    /// Processes a field that does not redefine a reference value. Afterward, operator 2 06 Y is no
    /// longer in effect.
    #[inline(always)]
    #[tactic(auto, using(crate::proofs::WalkLemmas::no_reference))]
    // rule: 2-06-y-used-up
    pub(crate) fn take_other<S: Fields>(
        &mut self,
        spec: &Spec,
        fields: &mut S,
    ) -> Result<Taken, WalkStop<S::Fault>>
        requires { is_reference spec.now.role ≡ false }
        ensures took { TakesField S.takes (Ok spec.now) fields.old result fields.new }
        ensures kept { IfOk result (λ t. (fxy : ℕ) → self.new ≡ after_field self.old fxy t) }
    {
        match fields.take(spec) {
            Ok(answer) => {
                if self.operands.local_width != 0 {
                    self.operands.local_width = 0;
                    self.key = key_by(self.operands, &self.new_references);
                }
                Ok(answer)
            }
            Err(fault) => Err(WalkStop::Field(fault)),
        }
    }

    /// Processes the characters that operator 2 05 Y inserts.
    #[tactic(auto, using(crate::proofs::SpecLemmas::inserted_width))]
    #[inline(always)]
    // rule: 2-05-y, defining-no-inserted-text
    pub(crate) fn take_inserted<S: Fields>(
        &mut self,
        fxy: Fxy,
        fields: &mut S,
    ) -> Result<Taken, WalkStop<S::Fault>>
        requires legal { is_legal_operator fxy ≡ true }
        requires text { is_inserted_text fxy ≡ true }
        ensures took { TakesField S.takes (inserted_spec self.old fxy) fields.old result
            fields.new }
        ensures kept { IfOk result (λ t. self.new ≡ after_field self.old fxy t) }
    {
        if self.operands.new_reference_width > 0 {
            return Err(WalkStop::Defining(fxy));
        }
        let spec = Spec::text(Role::Inserted, fxy, 8 * u32::from(fxy.y()), false);
        self.take(fxy, &spec, fields)
    }

    /// Processes a field, and stores its value if the field redefines a reference value. Afterward,
    /// operator 2 06 Y is no longer in effect. Memory for the value is reserved first, so that
    /// nothing can fail after the field has been processed.
    #[inline(never)]
    // rule: last-reference-counts
    pub(crate) fn take<S: Fields>(
        &mut self,
        fxy: Fxy,
        spec: &Spec,
        fields: &mut S,
    ) -> Result<Taken, WalkStop<S::Fault>>
        ensures took { TakesField S.takes (Ok spec.now) fields.old result fields.new }
        ensures kept { IfOk result (λ t. self.new ≡ after_field self.old fxy t) }
    {
        if !spec.is_reference() {
            return self.take_other(spec, fields);
        }
        self.key = NO_KEY;
        match self.new_references.reserve() {
            Ok(()) => {}
            Err(_) => return Err(WalkStop::Memory),
        }
        match fields.take(spec) {
            Ok(Taken::Reference(reference)) => {
                self.new_references.push(fxy.word(), reference);
                self.operands.local_width = 0;
                Ok(Taken::Reference(reference))
            }
            Ok(_) => unreachable!(),
            Err(fault) => Err(WalkStop::Field(fault)),
        }
    }
}

/// A group that the walk has entered but not yet left. `start` is the first cell of the group's
/// body, `after` is the first cell after the group, and `left` is the number of passes that remain
/// after the current one.
#[derive(Clone, Copy, Default)]
pub(crate) struct Frame {
    start: u32,
    after: u32,
    left: u64,
}

/// Opens a group and returns the first cell of its body. If the count is 0, skips the group and
/// returns the first cell after it.
#[inline(always)]
// rule: passes-by-count
fn open_group(count: u64, start: u32, after: u32, stack: &mut ArrayVec<Frame, 32>) -> u32
    requires { array_vec_len stack.old < 32 }
    ensures fits { count < 2 ^ 64 }
    ensures none { count ≡ 0 → (result ≡ after) × (stack.new.items ≡ stack.old.items) }
    ensures some { 0 < count → (result ≡ start) × (stack.new.items
        ≡ stack.old.items ++ record { start = start; after = after; left = count - 1 } ∷ []) }
{
    if count == 0 {
        return after;
    }
    stack.push(Frame {
        start,
        after,
        left: count - 1,
    });
    start
}

/// Ends a pass over the innermost open group and returns the next cell of the walk. The next cell
/// is the first cell of the group's body or, after the last pass, the first cell after the group.
#[inline(always)]
fn end_pass(groups: &mut ArrayVec<Frame, 32>) -> u32
    requires { 0 < array_vec_len groups.old }
    ensures last { (outer : List Frame) (frame : Frame) → groups.old.items ≡ outer ++ frame ∷ []
        → frame.left ≡ 0 → (result ≡ frame.after) × (groups.new.items ≡ outer) }
    ensures more { (outer : List Frame) (frame : Frame) → groups.old.items ≡ outer ++ frame ∷ []
        → 0 < frame.left → (result ≡ frame.start) × (groups.new.items ≡ outer
        ++ record { start = frame.start; after = frame.after; left = frame.left - 1 } ∷ []) }
{
    let last = groups.len() - 1;
    let frame = groups[last];
    if frame.left == 0 {
        groups.pop();
        return frame.after;
    }
    groups[last] = Frame {
        left: frame.left - 1,
        ..frame
    };
    frame.start
}

/// Computes the spec of a cell's field, caches it under the given key, and processes the field.
#[inline(always)]
fn find_and_take<S: Fields>(
    field: TableField,
    place: u32,
    key: SpecKey,
    cache: &mut SpecCache<'_>,
    fields: &mut S,
    in_force: &mut OperatorState,
) -> Result<Taken, WalkStop<S::Fault>>
    requires key { IsSpecKey in_force.old field key }
    requires few { key.operators < 2 ^ 62 }
    ensures took { TakesField S.takes (spec_of cache.old in_force.old field) fields.old result
        fields.new }
    ensures kept { IfOk result
        (λ t. in_force.new ≡ after_field in_force.old (descriptor_of field) t) }
    ensures same { cache.new ≡ cache.old }
{
    let spec = in_force.spec(cache.table, &field)?;
    cache.insert(place, key, &spec);
    in_force.take(field.fxy(), &spec, fields)
}

/// Processes a cell's field while a reference value is being redefined, or after one has been
/// redefined. If the cache has no space for the cell's spec, no key is computed, which saves a
/// second lookup of the redefined reference value.
#[tactic(auto, using(crate::proofs::CacheLemmas::spec_got_by))]
#[inline(never)]
fn take_redefined<S: Fields>(
    field: TableField,
    place: u32,
    cache: &mut SpecCache<'_>,
    fields: &mut S,
    in_force: &mut OperatorState,
) -> Result<Taken, WalkStop<S::Fault>>
    ensures took { TakesField S.takes (spec_of cache.old in_force.old field) fields.old result
        fields.new }
    ensures kept { IfOk result
        (λ t. in_force.new ≡ after_field in_force.old (descriptor_of field) t) }
    ensures same { cache.new ≡ cache.old }
{
    if place as usize >= cache.cells() {
        let spec = in_force.spec(cache.table, &field)?;
        return in_force.take(field.fxy(), &spec, fields);
    }
    let key = in_force.spec_key(&field);
    match cache.get_by(place, key) {
        Some(spec) => in_force.take(field.fxy(), spec, fields),
        None => find_and_take(field, place, key, cache, fields, in_force),
    }
}

/// Processes a cell's field. In most cases, no reference value has been redefined, so the spec's
/// key encodes only the operators and the descriptor.
#[tactic(auto, using(crate::proofs::CacheLemmas::spec_got, crate::proofs::CacheLemmas::spec_got_plain, crate::proofs::CacheLemmas::plain_key))]
#[inline(always)]
fn take_field<S: Fields>(
    field: TableField,
    place: u32,
    cache: &mut SpecCache<'_>,
    fields: &mut S,
    in_force: &mut OperatorState,
) -> Result<Taken, WalkStop<S::Fault>>
    ensures took { TakesField S.takes (spec_of cache.old in_force.old field) fields.old result
        fields.new }
    ensures kept { IfOk result
        (λ t. in_force.new ≡ after_field in_force.old (descriptor_of field) t) }
    ensures same { cache.new ≡ cache.old }
{
    let operators = in_force.key(&field);
    if let Some(spec) = cache.get(place, operators) {
        return in_force.take_other(spec, fields);
    }
    if operators < NO_KEY {
        let key = SpecKey {
            operators,
            number: 0,
        };
        return find_and_take(field, place, key, cache, fields, in_force);
    }
    take_redefined(field, place, cache, fields, in_force)
}

/// Walks over the cells of a template once and processes each field. A walk processes one subset of
/// plain data, or all subsets of compressed data.
///
/// The walk adds one step to `steps` for each descriptor (an element, an operator, a replication,
/// or a replication factor), for the end of each pass over a group, and for the end of the
/// template. If the template has `p` cells and the fields use `n` bits, there are at most `p * n`
/// steps, or `p * (n + 1)` if the walk stops early (FM 94 BUFR, section 3, Tables B and C).
///
/// ```
/// let mut steps = Steps::new();
/// let mut fields = PlainIn::new(BitSlice::new(&octets));
/// walk(alloc, &template, &table_b, &mut fields, &mut steps)?; // one subset was read
/// ```
///
/// # Errors
///
/// The walk stops at the first of the following faults:
///
/// - [`WalkStop::Defining`] if a descriptor is not allowed while reference values are being
///   redefined.
/// - [`WalkStop::Width`] if a non-text field is not 1 to 63 bits wide, or if the table does not
///   contain the element.
/// - [`WalkStop::Field`] if [`Fields::take`] returns a fault. The variant contains that fault.
/// - [`WalkStop::Memory`] if memory runs out before a redefined reference value is processed.
pub fn walk<S: Fields>(
    alloc: Global,
    template: &Template,
    table: &TableB,
    fields: &mut S,
    steps: &mut Steps,
) -> Result<(), WalkStop<S::Fault>>
    ensures walked { Walked S.takes (counted_item table.now template.now) fields.old steps.old
        result fields.new steps.new }
    ensures accepted { OnOk result
        (steps.new ≤ steps.old + places template.now * (S.used fields.new - S.used fields.old)) }
    ensures refused { OnErr result (steps.new
        ≤ steps.old + places template.now * (S.used fields.new - S.used fields.old + 1)) }
{
    let mut cache = SpecCache::new(alloc, table);
    walk_by(template, &mut cache, fields, steps)
}

/// Like [`walk`], but uses a cache of specs. A spec that is not cached is computed and, if the
/// cache has space for the cell, added to the cache. The cache does not grow.
///
/// # Errors
///
/// Returns the same errors as [`walk`].
// rule: defining-fixed-groups, fault-62-first
pub fn walk_by<S: Fields>(
    template: &Template,
    cache: &mut SpecCache<'_>,
    fields: &mut S,
    steps: &mut Steps,
) -> Result<(), WalkStop<S::Fault>>
    ensures same { cache.new ≡ cache.old }
    ensures walked { Walked S.takes (counted_item cache.old template.now) fields.old steps.old
        result fields.new steps.new }
    ensures accepted { OnOk result
        (steps.new ≤ steps.old + places template.now * (S.used fields.new - S.used fields.old)) }
    ensures refused { OnErr result (steps.new
        ≤ steps.old + places template.now * (S.used fields.new - S.used fields.old + 1)) }
{
    let mut open_groups: ArrayVec<Frame, 32> = ArrayVec::new();
    walk_with(template, cache, &mut open_groups, fields, steps)
}

/// Like [`walk_by`], but uses a stack that the caller provides. The walk clears the stack first.
/// Reusing a stack is faster than creating one for each subset.
pub(crate) fn walk_with<S: Fields>(
    template: &Template,
    cache: &mut SpecCache<'_>,
    open_groups: &mut ArrayVec<Frame, 32>,
    fields: &mut S,
    steps: &mut Steps,
) -> Result<(), WalkStop<S::Fault>>
    ensures same { cache.new ≡ cache.old }
    ensures walked { Walked S.takes (counted_item cache.old template.now) fields.old steps.old
        result fields.new steps.new }
    ensures accepted { OnOk result
        (steps.new ≤ steps.old + places template.now * (S.used fields.new - S.used fields.old)) }
    ensures refused { OnErr result (steps.new
        ≤ steps.old + places template.now * (S.used fields.new - S.used fields.old + 1)) }
{
    let cells = template.cells();
    open_groups.clear();
    let mut in_force = OperatorState::new(cache.alloc);
    let mut index: u32 = 0;
    'turns: loop {
        steps.tick();
        let cell = cells[index as usize];
        match cell {
            Cell::Element(fxy) => {
                take_field(
                    TableField::Element(fxy),
                    index,
                    cache,
                    fields,
                    &mut in_force,
                )?;
                index += 1;
                continue;
            }
            Cell::Operator(fxy) => {
                if fxy.x() == 5 {
                    in_force.take_inserted(fxy, fields)?;
                    index += 1;
                    continue;
                }
                in_force.apply(fxy)?;
                index += 1;
                continue;
            }
            Cell::Fixed(count, after) => {
                index = open_group(u64::from(count), index + 1, after, open_groups);
                continue;
            }
            Cell::Delayed(after) => {
                let place = index + 1;
                let next = cells[place as usize];
                let Cell::Factor(fxy) = next else {
                    unreachable!()
                };
                steps.tick();
                let factor = TableField::Factor(fxy);
                let answer = take_field(factor, place, cache, fields, &mut in_force)?;
                match answer {
                    Taken::Count(count) => {
                        index = open_group(count, index + 2, after, open_groups);
                        continue;
                    }
                    _ => unreachable!(),
                }
            }
            Cell::Factor(_) => unreachable!(),
            Cell::PassEnd => {
                index = end_pass(open_groups);
                continue;
            }
            Cell::Finish => return Ok(()),
        }
    }
}
