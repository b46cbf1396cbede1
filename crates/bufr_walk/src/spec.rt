//! A spec describes how a field is encoded.
ghost use Rattle.std.specs.Prelude.{◌≡◌, ◌≤◌, ◌^◌, false, true, unsigned_abs, ◌%◌};
ghost use Rattle.bufr_tables.specs.Prelude.{is_character};
ghost use Rattle.bufr_walk.specs.Prelude.{HasRole, HasWidth, number_field, if_valid_width, text_spec, IsSpec, is_reference, IsPlainNumber};
ghost use Rattle.bufr_tables.specs.declared.table_b.Kind.TheVariants as kinds;

use bufr_tables::{Fxy, Kind};
use std::marker::Model;

/// The role of a field in the data.
#[derive(Clone, Copy, Debug, PartialEq, Eq, PartialOrd, Ord)]
pub enum Role {
    /// The value of an element.
    Element,
    /// The characters that operator 2 05 Y inserts.
    Inserted,
    /// The replication factor of a delayed replication.
    Factor,
    /// A new reference value, stored in place of the element's value while 2 03 Y is in effect.
    Reference,
}

/// The reason why a walk rejects an element, a replication factor, or an operator. Each variant
/// contains the rejected descriptor.
#[derive(Clone, Copy, Debug, PartialEq, Eq)]
pub enum TurnRefusal {
    /// A non-text field is not 1 to 63 bits wide, or Table B does not contain the element.
    Width(Fxy),
    /// The descriptor is not allowed while 2 03 Y redefines reference values.
    Defining(Fxy),
}

/// The part of a field's value that affects how the following fields are processed.
#[derive(Clone, Copy, Debug, PartialEq, Eq)]
pub enum Taken {
    /// The field's value has no effect on the following fields. This variant applies to all fields
    /// except replication factors and redefined reference values.
    Plain,
    /// The value of a replication factor, which is the number of repetitions.
    Count(u64),
    /// The element's redefined reference value.
    Reference(i64),
}

/// A spec describes how a field is encoded (FM 94 BUFR, section 4, Tables B and C).
// The widest struct field comes first, so that there are no gaps between the fields. With gaps,
// copying a spec would take as long as reading a number.
#[derive(Clone, Copy, Debug, PartialEq, Eq)]
pub struct Spec {
    pub(crate) reference: i128,
    width: u32,
    pub(crate) fxy: Fxy,
    pub(crate) scale: i16,
    pub(crate) role: Role,
    kind: Kind,
    pub(crate) may_be_missing: bool,
    listed: bool,
    plain: bool,
}

/// The parts of a spec that describe how a number is encoded.
#[derive(Clone, Copy)]
pub(crate) struct NumberParts {
    pub(crate) kind: Kind,
    pub(crate) width: u32,
    pub(crate) scale: i16,
    pub(crate) reference: i128,
    pub(crate) may_be_missing: bool,
    pub(crate) listed: bool,
}

impl Model for Spec {
    ghost use Rattle.bufr_walk.specs.Content.{FieldSpec, IsSpecWith, is_plain};

    ghost Value = { FieldSpec };

    ghost view = { λ s. record {
      fxy = s.fxy;
      role = s.role;
      kind = s.kind;
      width = s.width;
      scale =
          s.scale;
      reference = s.reference;
      may_be_missing = s.may_be_missing;
      listed = s.listed;
    } };

    ghost invariant = { λ s. IsSpecWith s.plain (record {
      fxy = s.fxy;
      role = s.role;
      kind = s.kind;
      width = s.width;
      scale = s.scale;
      reference = s.reference;
      may_be_missing = s.may_be_missing;
      listed = s.listed;
    }) };

    ghost inverse = { λ a. record {
      fxy = a.fxy;
      role = a.role;
      kind = a.kind;
      width = a.width;
      scale = a.scale;
      reference = a.reference;
      may_be_missing = a.may_be_missing;
      listed = a.listed;
      plain = is_plain a;
    } };

    ghost inverse_ok = { λ s h. λ j. record {
      fxy = s.fxy;
      role = s.role;
      kind = s.kind;
      width = s.width;
      scale = s.scale;
      reference = s.reference;
      may_be_missing = s.may_be_missing;
      listed = s.listed;
      plain = h.same j;
    } };
}

impl Spec {
    /// Returns the spec of a numeric field, or [`TurnRefusal::Width`] if the field is not 1 to 63
    /// bits wide.
    #[tactic(auto, using(crate::proofs::SpecLemmas::number_good))]
    #[inline(always)]
    // rule: widths
    pub(crate) fn number(fxy: Fxy, role: Role, number: NumberParts) -> Result<Spec, TurnRefusal>
        requires number { is_character number.kind ≡ false }
        requires role { HasRole role number.kind number.may_be_missing }
        requires scale { unsigned_abs number.scale ≤ 300 }
        requires reference { unsigned_abs number.reference ≤ 2 ^ 125 }
        ensures { result ≡ if_valid_width (number_field fxy role number) }
    {
        if number.width < 1 || number.width > 63 {
            return Err(TurnRefusal::Width(fxy));
        }
        let plain = match role {
            Role::Element => {
                number.listed && number.width <= 62 && number.reference.unsigned_abs() < 1 << 62
            }
            Role::Inserted | Role::Factor | Role::Reference => false,
        };
        Ok(Spec {
            fxy,
            role,
            kind: number.kind,
            width: number.width,
            scale: number.scale,
            reference: number.reference,
            may_be_missing: number.may_be_missing,
            listed: number.listed,
            plain,
        })
    }

    /// Returns the spec of a text field that is `width` bits wide.
    #[tactic(auto, using(crate::proofs::SpecLemmas::text_good))]
    #[inline(always)]
    pub(crate) fn text(role: Role, fxy: Fxy, width: u32, listed: bool) -> Spec
        requires width { HasWidth kinds.Character width }
        requires role { HasRole role kinds.Character true }
        ensures { result ≡ text_spec role fxy width listed }
    {
        Spec {
            fxy,
            role,
            kind: Kind::Character,
            width,
            scale: 0,
            reference: 0,
            may_be_missing: true,
            listed,
            plain: false,
        }
    }

    /// Returns the descriptor of the field.
    pub fn fxy(&self) -> Fxy
        ensures { result ≡ self.now.fxy }
    {
        self.fxy
    }

    /// Returns the role of the field.
    pub fn role(&self) -> Role
        ensures { result ≡ self.now.role }
    {
        self.role
    }

    /// Returns the kind of the field (text, coded, or numeric).
    pub fn kind(&self) -> Kind
        ensures { result ≡ self.now.kind }
    {
        self.kind
    }

    /// Returns the width of the field in bits. The width is 1 to 63 or, if the field is text, a
    /// multiple of 8 up to 2,040.
    #[tactic(auto, using(crate::proofs::SpecLemmas::some_width, crate::proofs::SpecLemmas::most_width, crate::proofs::SpecLemmas::narrow_width, crate::proofs::SpecLemmas::whole_width, crate::proofs::SpecLemmas::reference_width))]
    pub fn width(&self) -> u32
        ensures value { result ≡ self.now.width }
        ensures spec { IsSpec self.now }
        ensures some { 1 ≤ self.now.width }
        ensures most { self.now.width ≤ 2040 }
        ensures narrow { is_character self.now.kind ≡ false → self.now.width ≤ 63 }
        ensures whole { is_character self.now.kind ≡ true → self.now.width % 8 ≡ 0 }
        ensures reference { is_reference self.now.role ≡ true → self.now.width ≤ 63 }
    {
        self.width
    }

    /// Returns the scale. The value of a numeric field is the sum of its raw number and the
    /// reference value, divided by 10 to the power of the scale.
    pub fn scale(&self) -> i16
        ensures value { result ≡ self.now.scale }
    {
        self.scale
    }

    /// Returns the reference value, which is added to the raw number in the field.
    pub fn reference(&self) -> i128
        ensures value { result ≡ self.now.reference }
        ensures spec { IsSpec self.now }
    {
        self.reference
    }

    /// Returns whether the field is text.
    pub fn is_text(&self) -> bool
        ensures { result ≡ is_character self.now.kind }
    {
        matches!(self.kind, Kind::Character)
    }

    /// Returns whether the field redefines a reference value.
    pub fn is_reference(&self) -> bool
        ensures { result ≡ is_reference self.now.role }
    {
        matches!(self.role, Role::Reference)
    }

    /// Returns whether the spec is based on an entry in Table B.
    pub fn listed(&self) -> bool
        ensures { result ≡ self.now.listed }
    {
        self.listed
    }

    /// Returns whether the field is a plain number. A plain number is a non-text element whose spec
    /// is based on Table B. It has at most 62 bits and a reference value of magnitude less than
    /// 2^62.
    #[inline(always)]
    pub(crate) fn is_plain(&self) -> bool
        ensures { result ≡ true → IsPlainNumber self.now }
    {
        self.plain
    }

    /// Returns whether the field's value can be missing. A missing value is encoded as all ones.
    pub fn may_be_missing(&self) -> bool
        ensures { result ≡ self.now.may_be_missing }
    {
        self.may_be_missing
    }
}
