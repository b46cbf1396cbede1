//! This module tracks which operators are in effect and computes field specs.
ghost use Rattle.std.specs.Prelude.{◌≡◌, ◌≤◌, ◌<◌, ◌*◌, ◌+◌, ◌^◌, ◌+ℤ◌, ◌*ℤ◌, ◌==◌, pos, unsigned_abs, List, Result, Ok, Err, Some, OnOk, IfErr, true, false};
ghost use Rattle.bufr_tables.specs.Prelude.{row_of_entry, is_legal_operator, IsRow};
ghost use Rattle.bufr_walk.specs.Prelude.{if_valid_width, spec_by_kind, unsigned_field, scale_change_of, operator_width, OperatorModel, Redefined, current_reference, AreOperands, known_of, operator_model, IsOperatorKey, HasRole, descriptor_of, key_word, spec_key, HasOctetOperands, begin, after_operator, IsFieldKey, IsSpecKey, spec_of};
ghost use Rattle.bufr_tables.specs.declared.table_b.Kind.TheVariants as kinds;
ghost use Rattle.bufr_walk.specs.declared.operators.OperatorOperands.{OperatorOperands};

use crate::references::References;
use crate::spec::{NumberParts, Role, Spec, TurnRefusal};
use crate::spec_cache::{NO_KEY, SpecKey};
use bufr_tables::{Entry, Fxy, Kind, TableB};
use std::alloc::Global;
use std::marker::Model;

/// The operand Y of each operator, or 0 if the operator is not in effect. `OperatorModel` in
/// `specs/` uses the same representation.
#[derive(Clone, Copy)]
pub(crate) struct OperatorOperands {
    width_change: u8,
    scale_change: u8,
    pub(crate) new_reference_width: u8,
    precision_increase: u8,
    character_octets: u8,
    pub(crate) local_width: u8,
}

/// The operands used when no operator is in effect.
const NO_OPERATORS: OperatorOperands = OperatorOperands {
    width_change: 0,
    scale_change: 0,
    new_reference_width: 0,
    precision_increase: 0,
    character_octets: 0,
    local_width: 0,
};

/// A flag that is set in a spec's key if the field redefines a reference value.
const DEFINING: u64 = 0x200_0000_0000_0000;

/// A flag that is set in a spec's key if the element's reference value has been redefined.
const REDEFINED: u64 = 0x400_0000_0000_0000;

/// A field whose descriptor is looked up in Table B (an element or a replication factor).
#[derive(Clone, Copy)]
pub(crate) enum TableField {
    Element(Fxy),
    Factor(Fxy),
}

impl TableField {
    /// Returns the descriptor of the field.
    #[inline(always)]
    pub(crate) fn fxy(&self) -> Fxy
        ensures { result ≡ descriptor_of self.now }
    {
        match *self {
            TableField::Element(fxy) | TableField::Factor(fxy) => fxy,
        }
    }

    /// Returns the part of a spec's key that encodes the field's descriptor and kind (element or
    /// replication factor).
    #[inline(always)]
    fn key_word(&self) -> u64
        ensures value { result ≡ key_word self.now }
        ensures word { descriptor_of self.now < 65536 }
    {
        match *self {
            TableField::Element(fxy) => u64::from(fxy.word()),
            TableField::Factor(fxy) => u64::from(fxy.word()) + 0x1_0000,
        }
    }
}

/// The operators in effect, and the reference values that the data has redefined.
#[derive(Drop)]
pub(crate) struct OperatorState {
    pub(crate) operands: OperatorOperands,
    pub(crate) new_references: References,
    /// The part of a spec's key that encodes the operators, or [`NO_KEY`] if a reference value is
    /// being redefined or a redefined one is in effect.
    pub(crate) key: u64,
}

impl Model for OperatorState {
    ghost use Rattle.bufr_walk.specs.Rules.{OperatorModel, AreOperands, known_of, operator_model, IsOperatorKey};

    ghost Value = { OperatorModel };

    ghost view = { λ a. operator_model a.operands (known_of a.new_references) };

    ghost invariant = { λ a. AreOperands a.operands
        × IsOperatorKey (operator_model a.operands (known_of a.new_references)) a.key };
}

/// Combines all operands except the width of new reference values (2 03 Y) into one number.
#[inline(always)]
fn operand_key(operands: OperatorOperands) -> u64
    ensures value { (known : List Redefined) → result ≡ spec_key (operator_model operands known) 0 }
    ensures octets { (known : List Redefined) → HasOctetOperands (operator_model operands known) }
    ensures few { result < 2 ^ 40 }
{
    u64::from(operands.width_change)
        + 0x100 * u64::from(operands.scale_change)
        + 0x1_0000 * u64::from(operands.precision_increase)
        + 0x100_0000 * u64::from(operands.character_octets)
        + 0x1_0000_0000 * u64::from(operands.local_width)
}

/// Combines the operands into one number. Returns [`NO_KEY`] if a reference value is being
/// redefined or has been redefined.
pub(crate) fn key_by(operands: OperatorOperands, new_references: &References) -> u64
    ensures { IsOperatorKey (operator_model operands (known_of new_references.now)) result }
{
    if operands.new_reference_width > 0 || !new_references.is_empty() {
        return NO_KEY;
    }
    operand_key(operands)
}

/// Returns an element's redefined reference value or, if there is none, its reference value in
/// Table B.
#[tactic(auto, using(crate::proofs::SpecLemmas::current_or))]
#[inline(always)]
// rule: new-reference-of-quantities
fn reference_of(new_references: &References, entry: &Entry<'_>) -> i64
    ensures { result ≡ current_reference (known_of new_references.now)
        (row_of_entry entry.now).fxy (row_of_entry entry.now).reference }
{
    let redefined = new_references.get(entry.fxy().word());
    redefined.unwrap_or(entry.reference())
}

/// Applies operators 2 01 Y and 2 07 Y to a quantity's width in bits.
#[inline(always)]
// rule: 2-01-y, 2-07-y, cancel-2-01-and-2-02, cancel-2-07-and-2-08
fn operator_width(width: u32, precision_increase: u8, width_change: u8) -> u32
    requires { width ≤ 2040 }
    ensures { result ≡ operator_width width precision_increase width_change }
{
    let extra = (10 * u32::from(precision_increase) + 2) / 3;
    if width_change == 0 {
        width + extra
    } else {
        (width + extra + u32::from(width_change)).saturating_sub(128)
    }
}

/// Applies operators 2 02 Y and 2 07 Y to a quantity's scale.
#[inline(always)]
// rule: 2-02-y, 2-07-y, cancel-2-01-and-2-02
fn operator_scale(scale: i16, scale_change: u8, precision_increase: u8) -> i16
    requires scale { unsigned_abs scale ≤ 127 }
    requires precision_increase { precision_increase ≤ 18 }
    ensures value { result ≡ (scale +ℤ scale_change_of scale_change) +ℤ pos precision_increase }
    ensures few { unsigned_abs result ≤ 300 }
{
    if scale_change == 0 {
        return scale + i16::from(precision_increase);
    }
    scale + (i16::from(scale_change) - 128) + i16::from(precision_increase)
}

/// Returns 10 to the power of `precision_increase`.
#[tactic(auto, using(crate::proofs::SpecLemmas::power_small))]
fn power_of_ten(precision_increase: u8) -> u64
    requires { precision_increase ≤ 18 }
    ensures value { result ≡ 10 ^ precision_increase }
    ensures most { result ≤ 10 ^ 18 }
{
    10u64.pow(u32::from(precision_increase))
}

/// Applies operator 2 07 Y to a quantity's reference value.
#[tactic(auto, using(crate::proofs::SpecLemmas::product_small))]
#[inline(always)]
// rule: 2-07-y, 2-07-y-of-a-new-reference
fn scaled(reference: i64, precision_increase: u8) -> i128
    requires { precision_increase ≤ 18 }
    ensures value { result ≡ reference *ℤ pos (10 ^ precision_increase) }
    ensures near { unsigned_abs result ≤ 2 ^ 125 }
{
    let reference = i128::from(reference);
    // In most cases no operator is in effect, and no multiplication is needed.
    if precision_increase == 0 {
        return reference;
    }
    reference * i128::from(power_of_ten(precision_increase))
}

/// Returns the spec of an element, given its Table B entry and its current reference value.
#[inline(always)]
// rule: class-31-never-missing, 2-01-2-02-2-07-add-up, new-reference-of-figures, figures-unchanged
// rule: 2-08-y, cancel-2-07-and-2-08
fn spec_by_kind(
    operands: OperatorOperands,
    reference: i64,
    entry: &Entry<'_>,
) -> Result<Spec, TurnRefusal>
    requires row { IsRow (row_of_entry entry.now) }
    requires operands { AreOperands operands }
    ensures { (known : List Redefined)
        → reference ≡ current_reference known (row_of_entry entry.now).fxy
        (row_of_entry entry.now).reference
        → result ≡ spec_by_kind (row_of_entry entry.now).kind (operator_model operands known)
        (row_of_entry entry.now) }
{
    let fxy = entry.fxy();
    match entry.kind() {
        Kind::Numeric => {
            let precision = operands.precision_increase;
            let number = NumberParts {
                kind: Kind::Numeric,
                width: operator_width(entry.width(), precision, operands.width_change),
                scale: operator_scale(entry.scale(), operands.scale_change, precision),
                reference: scaled(reference, precision),
                may_be_missing: fxy.x() != 31,
                listed: true,
            };
            Spec::number(fxy, Role::Element, number)
        }
        Kind::Coded => {
            let number = NumberParts {
                kind: Kind::Coded,
                width: entry.width(),
                scale: entry.scale(),
                reference: i128::from(reference),
                may_be_missing: fxy.x() != 31,
                listed: true,
            };
            Spec::number(fxy, Role::Element, number)
        }
        Kind::Character if operands.character_octets > 0 => {
            let width = 8 * u32::from(operands.character_octets);
            Ok(Spec::text(Role::Element, fxy, width, true))
        }
        Kind::Character => Ok(Spec::text(Role::Element, fxy, entry.width(), true)),
    }
}

/// Returns the spec of an unsigned numeric field with the given width in bits.
#[inline(always)]
// rule: 2-06-y-other-width, 2-06-y-of-class-31
fn unlisted(fxy: Fxy, role: Role, width: u8, may_be_missing: bool) -> Result<Spec, TurnRefusal>
    requires { HasRole role kinds.Numeric may_be_missing }
    ensures { result ≡ if_valid_width
        (record (unsigned_field fxy width) { role = role; may_be_missing = may_be_missing }) }
{
    let number = NumberParts {
        kind: Kind::Numeric,
        width: u32::from(width),
        scale: 0,
        reference: 0,
        may_be_missing,
        listed: false,
    };
    Spec::number(fxy, role, number)
}

impl OperatorState {
    /// Creates the state at the start of a subset, when no operator is in effect.
    pub(crate) fn new(alloc: Global) -> OperatorState
        ensures { result ≡ begin }
    {
        OperatorState {
            operands: NO_OPERATORS,
            new_references: References::new(alloc),
            key: 0,
        }
    }

    /// Returns the key of a field's spec. If a reference value is being redefined or has been
    /// redefined, the result is not a valid key.
    #[tactic(auto, using(crate::proofs::CacheLemmas::with_word))]
    #[inline(always)]
    pub(crate) fn key(&self, field: &TableField) -> u64
        ensures { IsFieldKey self.now field.now result }
    {
        self.key + 0x100_0000_0000 * field.key_word()
    }

    /// Returns the key of a field's spec. The key encodes everything that the spec depends on.
    #[inline(always)]
    pub(crate) fn spec_key(&self, field: &TableField) -> SpecKey
        ensures is { IsSpecKey self.now field.now result }
        ensures few { result.operators < 2 ^ 62 }
    {
        let operators = operand_key(self.operands) + 0x100_0000_0000 * field.key_word();
        let width = self.operands.new_reference_width;
        if width > 0 {
            return SpecKey {
                operators: operators + DEFINING,
                number: i64::from(width),
            };
        }
        match self.new_references.get(field.fxy().word()) {
            Some(reference) => SpecKey {
                operators: operators + REDEFINED,
                number: reference,
            },
            None => SpecKey {
                operators,
                number: 0,
            },
        }
    }

    /// Returns the spec of a field, given the operators in effect (FM 94 BUFR, Tables B and C).
    #[inline(never)]
    // rule: 2-06-y, 2-06-y-width-of-table-b, fault-32-before-31, defining-no-text
    // rule: factor-by-entry, defining-no-delayed-group
    pub(crate) fn spec(&self, table: &TableB, field: &TableField) -> Result<Spec, TurnRefusal>
        ensures { result ≡ spec_of table.now self.now field.now }
    {
        let operands = self.operands;
        match *field {
            TableField::Element(fxy) => match table.get(fxy) {
                Some(entry) if operands.local_width > 0 => {
                    if entry.width() == u32::from(operands.local_width) {
                        return spec_by_kind(NO_OPERATORS, entry.reference(), &entry);
                    }
                    unlisted(fxy, Role::Element, operands.local_width, fxy.x() != 31)
                }
                Some(entry) if operands.new_reference_width > 0 => match entry.kind() {
                    Kind::Character => Err(TurnRefusal::Defining(fxy)),
                    Kind::Coded | Kind::Numeric => {
                        unlisted(fxy, Role::Reference, operands.new_reference_width, false)
                    }
                },
                Some(entry) => {
                    let reference = reference_of(&self.new_references, &entry);
                    spec_by_kind(operands, reference, &entry)
                }
                None if operands.local_width > 0 => {
                    unlisted(fxy, Role::Element, operands.local_width, fxy.x() != 31)
                }
                None => Err(TurnRefusal::Width(fxy)),
            },
            TableField::Factor(fxy) if operands.new_reference_width > 0 => {
                Err(TurnRefusal::Defining(fxy))
            }
            TableField::Factor(fxy) => match table.get(fxy) {
                Some(entry) => {
                    let number = NumberParts {
                        kind: Kind::Numeric,
                        width: entry.width(),
                        scale: entry.scale(),
                        reference: i128::from(entry.reference()),
                        may_be_missing: false,
                        listed: true,
                    };
                    Spec::number(fxy, Role::Factor, number)
                }
                None => Err(TurnRefusal::Width(fxy)),
            },
        }
    }

    /// Applies an operator. While reference values are being redefined, the only allowed operator
    /// is 2 03 255, which ends the redefinition (FM 94 BUFR, Table C).
    // rule: 2-03-y, 2-03-000, later-operator-replaces, 2-03-y-again, defining-no-other-operator
    // rule: 2-03-255-alone, fault-32-before-31
    pub(crate) fn apply(&mut self, fxy: Fxy) -> Result<(), TurnRefusal>
        requires { is_legal_operator fxy ≡ true }
        ensures ok { OnOk result (after_operator self.old fxy ≡ Ok self.new) }
        ensures err { IfErr result (λ why. after_operator self.old fxy ≡ Err why) }
    {
        let (x, y) = (fxy.x(), fxy.y());
        if self.operands.new_reference_width > 0 && !(x == 3 && y == 255) {
            return Err(TurnRefusal::Defining(fxy));
        }
        match x {
            1 => self.operands.width_change = y,
            2 => self.operands.scale_change = y,
            3 => {
                if y == 255 {
                    self.operands.new_reference_width = 0;
                } else if y == 0 {
                    self.new_references.clear();
                } else {
                    self.operands.new_reference_width = y;
                }
            }
            6 => self.operands.local_width = y,
            7 => self.operands.precision_increase = y,
            8 => self.operands.character_octets = y,
            // The remaining operator is 2 05 Y, which changes no operand. The walk never applies
            // it.
            _ => {}
        }
        self.key = key_by(self.operands, &self.new_references);
        Ok(())
    }
}
