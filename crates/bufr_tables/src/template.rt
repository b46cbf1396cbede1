//! A descriptor list expands into a tree, and a template stores this tree as a flat list of cells.
ghost use Rattle.std.specs.Prelude.{◌≡◌, ◌≤◌, length};
ghost use Rattle.bufr_tables.specs.Tree.{places as places_of, depth as depth_of, Tree};
ghost use Rattle.bufr_tables.specs.Cells.{AreCellsOf, tree_code, trees_of_cells, IsTemplate};

use crate::fxy::Fxy;
use std::marker::Model;

/// An entry in the flat list that stores a template. A walk through the template processes one cell
/// per step.
///
/// A group begins with `Fixed`, or with `Delayed` and `Factor`, continues with the cells of its
/// body, and ends with `PassEnd`. The last cell of a template is `Finish`. Indices of cells are
/// counted from 0.
#[derive(Clone, Copy, Debug, PartialEq, Eq)]
pub enum Cell {
    /// An element, which must be in Table B unless 2 06 Y directly precedes it.
    Element(Fxy),
    /// An operator of Table C with its operand.
    Operator(Fxy),
    /// The start of a group with a fixed repetition count. The fields are the repetition count (1
    /// to 255) and the index of the cell after the group's `PassEnd`.
    Fixed(u8, u32),
    /// The start of a group with a replication factor. The field is the index of the cell after the
    /// group's `PassEnd`.
    Delayed(u32),
    /// The factor (0 31 000, 0 31 001 or 0 31 002) of a group that begins with `Delayed`. This cell
    /// directly follows `Delayed`.
    Factor(Fxy),
    /// The end of one repetition of the innermost open group.
    PassEnd,
    /// The end of the template.
    Finish,
}

/// A tree of elements, operators and groups, expanded from a descriptor list. Sequences are
/// replaced by their members (FM 94 BUFR, section 3, Table D). The tree is stored as a flat list of
/// cells. In contracts, a template is represented by the tree itself.
///
/// Each repetition of a group consumes data bits, and so does the template as a whole.
#[derive(Debug, Drop)]
pub struct Template {
    pub(crate) cells: Vec<Cell>,
    pub(crate) depth: u32,
}

impl Model for Template {
    ghost Value = { Tree };

    ghost coded = { tree_code };

    ghost view = { λ a. trees_of_cells a.cells.items };

    ghost invariant = { λ a. IsTemplate a.cells.items a.depth (trees_of_cells a.cells.items) };
}

impl Template {
    /// Returns the number of cells in the template, from 2 to 65,535. There is one cell for each
    /// element and operator, and one for the end of the template. In addition to the cells of its
    /// body, a group has two cells, or three if it has a factor. This function does not allocate.
    pub fn places(&self) -> u32
        ensures value { result ≡ places_of self.now }
        ensures most { result ≤ 65535 }
    {
        self.cells.len() as u32
    }

    /// Returns the maximum nesting depth of groups, from 0 to 32. This function does not allocate.
    pub fn depth(&self) -> u32
        ensures value { result ≡ depth_of self.now }
        ensures most { result ≤ 32 }
    {
        self.depth
    }

    /// Returns all cells of the template, in order. [`Template::places`] returns the number of
    /// cells. A group begins with [`Cell::Fixed`], or with [`Cell::Delayed`] and [`Cell::Factor`],
    /// continues with the cells of its body, and ends with [`Cell::PassEnd`]. The last cell is
    /// [`Cell::Finish`]. This function does not allocate.
    pub fn cells(&self) -> &[Cell]
        ensures flattened { AreCellsOf result.now self.now }
        ensures count { length result.now ≡ places_of self.now }
    {
        self.cells.as_slice()
    }
}
