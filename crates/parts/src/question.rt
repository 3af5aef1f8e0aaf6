// What is asked, and of whom: a device's rows, and a rule.
ghost use Rattle.std.specs.Prelude.{◌≡◌, true};
ghost use Rattle.tables.specs.Rules.{accepted_rule};
ghost use Rattle.tables.specs.Tables.{accepted_table};
ghost use Rattle.parts.specs.Families.{Families};

use super::families::Family;

// An accepted table of one device, and the families of its rows.
#[derive(Clone, Copy)]
pub struct Device<'a> {
    pub table: &'a [u32],
    pub families: &'a [Family],
    ghost accepted: { accepted_table table.now ≡ true },
    ghost known: { Families table.now families.now },
}

// An accepted rule that is asked of a device. The recursions pass it by reference: their frames stay small.
#[derive(Clone, Copy)]
pub struct Question<'a> {
    pub rule: &'a [u32],
    pub device: Device<'a>,
    ghost accepted: { accepted_rule rule.now ≡ true },
}
