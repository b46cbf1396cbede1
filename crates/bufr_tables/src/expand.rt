//! Expands descriptor lists into templates, depth first and from left to right. The number of cells
//! and the work per cell are bounded, so even a malicious list is expanded or rejected quickly.
ghost use Rattle.std.specs.Prelude.{◌≡◌, ◌≢◌, is_some, ◌+◌, ◌*◌, max, vec_capacity, ◌<◌, ◌≤◌, ◌++◌, ◌∷◌, [], length, Ok, Err, MatchResult, OnOk, OnErr, IfErr, IfOk};
ghost use Rattle.bufr_tables.specs.Fxy.{x_of};
ghost use Rattle.bufr_tables.specs.TableB.{entry_of};
ghost use Rattle.bufr_tables.specs.TableD.{members_of};
ghost use Rattle.bufr_tables.specs.Tree.{places as places_of, depth as depth_of};
ghost use Rattle.bufr_tables.specs.Expansion.{leaves, ListsLeaves, IsKnown, IsLegal, IsSound, tree_of, tables_of, begins_with_element as element_begins, part_of, group_part, with_places};
ghost use Rattle.bufr_tables.specs.Growth.{places_so_far, PushesTreeUnlessMemory, GivesPart, factor_cells, first_cell, own_places, tables_in, inner_in, list_in, group_in};

use crate::fault::TemplateFault;
use crate::fxy::Fxy;
use crate::table_b::TableB;
use crate::table_d::TableD;
use crate::template::{Cell, Template};
use std::alloc::Global;

/// The maximum nesting depth of groups and sequences.
const MAX_OPEN: u32 = 32;

/// The minimum initial capacity of a template, in cells. This capacity is enough for most
/// templates.
const MIN_ROOM: usize = 128;

impl Template {
    /// Expands a descriptor list into a tree, and stores the tree as a flat list of cells. The list
    /// is expanded depth first and from left to right.
    ///
    /// Groups and sequences may be nested at most 32 levels deep, and a template may have at most
    /// 65,535 cells (see [`Template::places`]). A list that needs more cells is rejected as soon as
    /// the limit is exceeded.
    ///
    /// ```
    /// let descriptors = [Fxy::from_word(0x0101)]; // 0 01 001
    /// let template = Template::build(alloc, &descriptors, &table_b, &table_d)?;
    /// assert_eq!(rt; template.places(), 2); // the element, and the end
    /// ```
    ///
    /// # Errors
    ///
    /// This function returns the first of the following faults that it finds:
    ///
    /// - For a replication 1 X Y, the fault is [`TemplateFault::GroupShape`] if X is 0. If Y is 0
    ///   and no factor (0 31 000, 0 31 001 or 0 31 002) follows, the fault is
    ///   [`TemplateFault::NoFactor`]. If Y is 0 and a factor follows but is not in Table B, the
    ///   fault is [`TemplateFault::UnknownElement`] with the factor. If fewer than X descriptors
    ///   (not counting the factor) follow in the same list, the fault is
    ///   [`TemplateFault::GroupShape`]. Otherwise, the fault is [`TemplateFault::Depth`] if the
    ///   group is nested too deeply, or [`TemplateFault::TemplateSize`] if the template has no room
    ///   for the group's own cells. After these checks, the fault is the first fault in the body,
    ///   or [`TemplateFault::EmptyGroup`] if the body consumes no data bits.
    /// - For a sequence, the fault is [`TemplateFault::UnknownSequence`] if Table D does not
    ///   contain the sequence. Otherwise, the fault is [`TemplateFault::Depth`] if the sequence is
    ///   nested too deeply, or else the first fault in its members.
    /// - For an element, the fault is [`TemplateFault::UnknownElement`] if Table B does not contain
    ///   the element and 2 06 Y does not directly precede it. Otherwise, the fault is
    ///   [`TemplateFault::TemplateSize`] if the template is already full.
    /// - For an operator, the fault is [`TemplateFault::Operator`] if the operator is not supported
    ///   or does not allow this operand, or [`TemplateFault::LocalShape`] if 2 06 Y is not directly
    ///   followed by an element in the same list. Otherwise, the fault is
    ///   [`TemplateFault::TemplateSize`] if the template is already full.
    /// - At the end, if the whole list consumes no data bits, the fault is
    ///   [`TemplateFault::EmptyGroup`] with the first descriptor (000000 if the list is empty).
    ///
    /// If memory cannot be allocated, expansion fails at that point with [`TemplateFault::Memory`].
    // rule: groups-take-bits
    pub fn build(
        alloc: Global,
        descriptors: &[Fxy],
        table_b: &TableB,
        table_d: &TableD,
    ) -> Result<Template, TemplateFault>
        ensures tree { IfOk result
            (λ template.
            tree_of (tables_of table_b.now table_d.now) descriptors.now ≡ Ok template) }
        ensures fault { IfErr result
            (λ why. why ≢ TemplateFault.Memory
            → tree_of (tables_of table_b.now table_d.now) descriptors.now ≡ Err why) }

        // The expansion does not lose, add or move any element, operator or factor of the list.
        ensures leaves { IfOk result
            (λ template. ListsLeaves (members_of table_d.now) descriptors.now (leaves template)) }

        // The walk over a template relies on the following clauses.
        ensures known { IfOk result
            (λ template. IsKnown (λ fxy. is_some (entry_of table_b.now fxy)) template) }
        ensures sound { IfOk result IsSound }
        ensures legal { IfOk result IsLegal }
        ensures within { IfOk result (λ template. places_of template ≤ 65535) }
        ensures shallow { IfOk result (λ template. depth_of template ≤ 32) }
    {
        let expander = Expander {
            table_b,
            table_d,
            room: MAX_OPEN,
        };
        let room = descriptors.len().saturating_add(1).max(MIN_ROOM);
        let room = room.min(MAX_PLACES as usize);
        let cells = Vec::with_capacity(alloc, room).map_err(|_| TemplateFault::Memory)?;
        let mut growing = TemplateBuilder {
            cells,
            open_groups: 0,
            depth: 0,
            consumes: false,
        };
        expander.list(descriptors, &mut growing)?;
        if !growing.consumes {
            let first = descriptors.first().copied().unwrap_or(Fxy::from_word(0));
            return Err(TemplateFault::EmptyGroup(first));
        }
        let TemplateBuilder {
            mut cells,
            open_groups: _,
            depth,
            consumes: _,
        } = growing;
        push_cell(&mut cells, Cell::Finish)?;
        Ok(Template { cells, depth })
    }
}

/// Expands descriptors using `table_b` and `table_d`. Groups and sequences may be nested up to
/// `room` more levels deep.
#[derive(Clone, Copy)]
pub(crate) struct Expander<'a> {
    pub(crate) table_b: &'a TableB,
    pub(crate) table_d: &'a TableD,
    pub(crate) room: u32,
}

impl Expander<'_> {
    ghost use Rattle.bufr_tables.specs.Growing.{builder_model};

    fn knows(&self, fxy: Fxy) -> bool
        ensures { result ≡ (tables_in self.now).known fxy }
    {
        self.table_b.get(fxy).is_some()
    }

    /// Expands a descriptor list and appends the resulting cells to `growing`.
    #[cycle(expansion)]
    pub(crate) fn list(
        &self,
        list: &[Fxy],
        growing: &mut TemplateBuilder,
    ) -> Result<(), TemplateFault>
        ensures { PushesTreeUnlessMemory (builder_model growing.old)
            (list_in self.now (places_so_far (builder_model growing.old)) list.now)
            result (builder_model growing.new) }
    {
        let mut rest = list;
        let mut width_given = false;
        while let Some((fxy, after)) = rest.split_first() {
            let taken = self.part(*fxy, after, width_given, growing)?;
            width_given = fxy.gives_width();
            rest = &after[taken..];
        }
        Ok(())
    }

    /// Expands one descriptor. If the descriptor is a replication, returns the number of
    /// descriptors in `after` that belong to the replication. Otherwise, returns 0.
    #[cycle(expansion)]
    // rule: descriptor-kinds, 2-06-y-unknown-element, 2-06-y-before-an-element
    // rule: order-at-an-element, order-at-an-operator, order-at-a-sequence
    fn part(
        &self,
        fxy: Fxy,
        after: &[Fxy],
        width_given: bool,
        growing: &mut TemplateBuilder,
    ) -> Result<usize, TemplateFault>
        ensures gives { GivesPart (builder_model growing.old)
            (part_of (tables_in self.now) (inner_in self.now) width_given
            (places_so_far (builder_model growing.old)) fxy after.now)
            result (builder_model growing.new) }
        ensures within { IfOk result (λ taken. taken ≤ length after.now) }
    {
        match fxy.f() {
            0 => {
                if !width_given && !self.knows(fxy) {
                    return Err(TemplateFault::UnknownElement(fxy));
                }
                growing.push_element(fxy)?;
                Ok(0)
            }
            1 => self.group(fxy, after, growing),
            2 => {
                if !fxy.is_legal_operator() {
                    return Err(TemplateFault::Operator(fxy));
                }
                if fxy.gives_width() && !begins_with_element(after) {
                    return Err(TemplateFault::LocalShape(fxy));
                }
                growing.push_operator(fxy)?;
                Ok(0)
            }
            _ => {
                let Some(members) = self.table_d.members(fxy) else {
                    return Err(TemplateFault::UnknownSequence(fxy));
                };
                if self.room == 0 {
                    return Err(TemplateFault::Depth(fxy));
                }
                let inner = Expander {
                    room: self.room - 1,
                    ..*self
                };
                inner.list(members, growing)?;
                Ok(0)
            }
        }
    }

    /// Expands a replication into a group. The group is repeated Y times or, if Y is 0, as many
    /// times as its factor in the data specifies. Returns the number of descriptors in `after` that
    /// belong to the replication (X, or X + 1 if there is a factor).
    #[cycle(expansion)]
    // rule: fixed-replication, delayed-replication, order-at-a-replication
    fn group(
        &self,
        fxy: Fxy,
        after: &[Fxy],
        growing: &mut TemplateBuilder,
    ) -> Result<usize, TemplateFault>
        ensures gives { GivesPart (builder_model growing.old)
            (group_part (tables_in self.now) (inner_in self.now)
            (places_so_far (builder_model growing.old)) fxy after.now)
            result (builder_model growing.new) }
        ensures within { IfOk result (λ taken. taken ≤ length after.now) }
    {
        if fxy.x() == 0 {
            return Err(TemplateFault::GroupShape(fxy));
        }
        if fxy.y() > 0 {
            let passes = Passes::Fixed(fxy.y());
            self.group_of(fxy, &passes, after, growing)?;
            return Ok(usize::from(fxy.x()));
        }
        let Some((factor, after_factor)) = after.split_first() else {
            return Err(TemplateFault::NoFactor(fxy));
        };
        if !factor.is_factor() {
            return Err(TemplateFault::NoFactor(fxy));
        }
        if !self.knows(*factor) {
            return Err(TemplateFault::UnknownElement(*factor));
        }
        let passes = Passes::Delayed(*factor);
        self.group_of(fxy, &passes, after_factor, growing)?;
        Ok(1 + usize::from(fxy.x()))
    }

    /// Expands a group. The group's body, which consists of the next X descriptors, must consume
    /// data bits.
    #[cycle(expansion)]
    // rule: replication-before-expansion, replication-nested, replication-in-one-list
    // rule: groups-take-bits, order-at-a-replication
    fn group_of(
        &self,
        fxy: Fxy,
        passes: &Passes,
        after: &[Fxy],
        growing: &mut TemplateBuilder,
    ) -> Result<(), TemplateFault>
        ensures gives { PushesTreeUnlessMemory (builder_model growing.old)
            (group_in self.now passes.now (places_so_far (builder_model growing.old)) fxy
            after.now)
            result (builder_model growing.new) }
        ensures taken { IfOk result (λ _. x_of fxy ≤ length after.now) }
    {
        let count = usize::from(fxy.x());
        if after.len() < count {
            return Err(TemplateFault::GroupShape(fxy));
        }
        if self.room == 0 {
            return Err(TemplateFault::Depth(fxy));
        }
        let place = growing.open(fxy, passes)?;
        let inner = Expander {
            room: self.room - 1,
            ..*self
        };
        inner.list(&after[..count], growing)?;
        if !growing.consumes {
            return Err(TemplateFault::EmptyGroup(fxy));
        }
        growing.close(place, passes)
    }
}

fn begins_with_element(list: &[Fxy]) -> bool
    ensures { result ≡ element_begins list.now }
{
    list.first().is_some_and(|fxy| fxy.f() == 0)
}

/// The number of times that a group is repeated.
#[derive(Clone, Copy)]
pub(crate) enum Passes {
    /// A fixed number of repetitions.
    Fixed(u8),
    /// The number of repetitions is the value of this factor in the data.
    Delayed(Fxy),
}

impl Passes {
    /// Returns the number of cells in a group, not counting those in its body.
    fn places(&self) -> u32
        ensures { result ≡ own_places self.now }
    {
        match self {
            Passes::Fixed(_) => 2,
            Passes::Delayed(_) => 3,
        }
    }

    /// Returns the first cell of a group. `after` is the index of the cell after the group.
    fn first_cell(&self, after: u32) -> Cell
        ensures { result ≡ first_cell self.now after }
    {
        match self {
            Passes::Fixed(count) => Cell::Fixed(*count, after),
            Passes::Delayed(_) => Cell::Delayed(after),
        }
    }
}

/// The maximum number of cells in a template.
pub(crate) const MAX_PLACES: u32 = 65_535;

/// A template that is being built from a descriptor list.
#[derive(Drop)]
pub(crate) struct TemplateBuilder {
    /// The cells added so far.
    pub(crate) cells: Vec<Cell>,
    /// The number of open groups, that is, groups whose end has not been added yet.
    pub(crate) open_groups: u32,
    /// The greatest number of groups that have been open at the same time.
    pub(crate) depth: u32,
    /// Whether the body of the innermost open group (or the template, if no group is open) consumes
    /// data bits so far.
    pub(crate) consumes: bool,
    pub(crate) ghost within: { length cells.items + open_groups < 65535 },
    pub(crate) ghost around: { open_groups ≤ depth },
    pub(crate) ghost room: { vec_capacity cells ≤ 131072 },
}

/// Checks whether `more` cells can be added to a template that has `places` cells. Returns
/// [`TemplateFault::TemplateSize`] with `fxy` if the template would have too many cells.
fn check_places(places: u32, more: u32, fxy: Fxy) -> Result<(), TemplateFault>
    requires within { places ≤ 65535 }
    requires few { more ≤ 3 }
    ensures room { IfOk result (λ _. places + more ≤ 65535) }
    ensures gives { MatchResult result (λ _. with_places places more fxy ≡ Ok tt)
        (λ why. with_places places more fxy ≡ Err why) }
{
    if places + more > MAX_PLACES {
        return Err(TemplateFault::TemplateSize(fxy));
    }
    Ok(())
}

/// Appends a cell to `cells`. If `cells` is full, its capacity doubles.
pub(crate) fn push_cell(cells: &mut Vec<Cell>, cell: Cell) -> Result<(), TemplateFault>
    ensures room { vec_capacity cells.new
        ≤ max (vec_capacity cells.old) (2 * length cells.old.items + 1) }
    ensures ok { OnOk result (cells.new.items ≡ cells.old.items ++ cell ∷ []) }
    ensures err { IfErr result (λ why. why ≡ TemplateFault.Memory) }
    ensures unchanged { OnErr result (cells.new.items ≡ cells.old.items) }
{
    let len = cells.len();
    let full = len == cells.capacity();
    match cells.reserve_exact(if full { len.max(1) } else { 1 }) {
        Ok(()) => {}
        Err(_) => return Err(TemplateFault::Memory),
    }
    cells.push_reserved(cell);
    Ok(())
}

/// Appends a cell for the group's factor, if the group has one.
fn push_factor(cells: &mut Vec<Cell>, passes: &Passes) -> Result<(), TemplateFault>
    ensures room { vec_capacity cells.new
        ≤ max (vec_capacity cells.old) (2 * length cells.old.items + 1) }
    ensures ok { OnOk result (cells.new.items ≡ cells.old.items ++ factor_cells passes.now) }
    ensures err { IfErr result (λ why. why ≡ TemplateFault.Memory) }
    ensures unchanged { OnErr result (cells.new.items ≡ cells.old.items) }
{
    match passes {
        Passes::Fixed(_) => Ok(()),
        Passes::Delayed(factor) => push_cell(cells, Cell::Factor(*factor)),
    }
}

impl TemplateBuilder {
    ghost use Rattle.std.specs.Prelude.{◌≡◌, ◌+◌, ◌<◌, ◌≤◌, Ok, [], length, false, IfOk, IfErr};
    ghost use Rattle.bufr_tables.specs.Tree.{bare, element, operator};
    ghost use Rattle.bufr_tables.specs.Growth.{places_so_far, with_cell, with_closed_group, GivesGrowth, GivesPlace};
    ghost use Rattle.bufr_tables.specs.Growing.{builder_model};

    /// Returns the number of cells so far, plus one for the end of each open group and one for the
    /// end of the template.
    fn places(&self) -> u32
        ensures value { result ≡ places_so_far (builder_model self.now) }
        ensures most { result ≤ 65535 }
    {
        self.cells.len() as u32 + self.open_groups + 1
    }

    pub(crate) fn push_element(&mut self, fxy: Fxy) -> Result<(), TemplateFault>
        ensures { GivesGrowth (with_cell (builder_model self.old) fxy (element fxy bare)) result
            (builder_model self.new) }
    {
        check_places(self.places(), 1, fxy)?;
        push_cell(&mut self.cells, Cell::Element(fxy))?;
        self.consumes = true;
        Ok(())
    }

    pub(crate) fn push_operator(&mut self, fxy: Fxy) -> Result<(), TemplateFault>
        ensures { GivesGrowth (with_cell (builder_model self.old) fxy (operator fxy bare)) result
            (builder_model self.new) }
    {
        check_places(self.places(), 1, fxy)?;
        push_cell(&mut self.cells, Cell::Operator(fxy))?;
        self.consumes |= fxy.x() == 5;
        Ok(())
    }

    /// Opens a group and returns the index of its first cell.
    pub(crate) fn open(&mut self, fxy: Fxy, passes: &Passes) -> Result<usize, TemplateFault>
        ensures { GivesPlace (builder_model self.old) passes.now fxy result
            (builder_model self.new) }
    {
        check_places(self.places(), passes.places(), fxy)?;
        let place = self.cells.len();
        let head = passes.first_cell(0);
        push_cell(&mut self.cells, head)?;
        push_factor(&mut self.cells, passes)?;
        self.open_groups += 1;
        self.depth = self.depth.max(self.open_groups);
        self.consumes = false;
        Ok(place)
    }

    /// Closes the innermost open group, whose first cell is at index `place`. Stores the index of
    /// the cell after the group in that first cell.
    pub(crate) fn close(&mut self, place: usize, passes: &Passes) -> Result<(), TemplateFault>
        requires inside { place < length self.old.cells.items }
        requires around { 0 < self.old.open_groups }
        ensures { GivesGrowth (Ok (with_closed_group (builder_model self.old) place passes.now))
            result
            (builder_model self.new) }
    {
        push_cell(&mut self.cells, Cell::PassEnd)?;
        let after = self.cells.len() as u32;
        self.cells[place] = passes.first_cell(after);
        self.open_groups -= 1;
        Ok(())
    }
}
