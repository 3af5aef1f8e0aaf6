// Which rows of a device's table its part keeps.
ghost use Rattle.std.specs.Prelude.{◌≡◌, ◌<◌, length};
ghost use Rattle.tables.specs.Words.{row_at, row_count, rows};
ghost use Rattle.tables.specs.Tables.{row_limit};
ghost use Rattle.logic.specs.Formulas.{formulas_of};
ghost use Rattle.parts.specs.Families.{OneDevice, family_at};
ghost use Rattle.parts.specs.Modes.{word_of};
ghost use Rattle.parts.specs.Keeping.{left_out, stays, ReadyRow, Keeps};

use super::families::{Family, find_families};
use super::modes::Mode;
use super::omitting::omits_each;
use super::question::Device;
use sets::RuleSet;
use tables::{ROW_LIMIT, ROW_WORDS};

// Whether a row has a parent, and that does not stay.
fn parent_left_out(families: &[Family], kept: &[bool], row: usize) -> bool
    requires row_in_bounds { row < length families.now }
    requires parent_in_bounds { (family_at families.now row).parent < length kept.now }
    ensures { result ≡ left_out families.now kept.now row }
{
    let parent = families[row].parent as usize;
    parent != row && !kept[parent]
}

// Whether a row stays: it passes the mode's test, and it is a root or its parent stays.
fn stays(set: &RuleSet<'_>, device: &Device<'_>, kept: &[bool], mode: Mode, row: usize) -> bool
    requires { ReadyRow (formulas_of set.now.rules.now set.now.counts.now) device.now.table.now kept.now (word_of mode) row }
    ensures { result ≡ stays (word_of mode) (formulas_of set.now.rules.now set.now.counts.now) (rows device.now.table.now) (row_at device.now.table.now row) }
{
    if parent_left_out(device.families, kept, row) {
        return false;
    }
    mode == Mode::All || !omits_each(set, device, row, mode)
}

// Writes that of each row.
pub(crate) fn keep_rows(set: &RuleSet<'_>, table: &[u32], mode: Mode, kept: &mut [bool])
    requires one_device { OneDevice table.now }
    requires sized { length kept.old ≡ row_limit }
    ensures { Keeps (formulas_of set.now.rules.now set.now.counts.now) table.now (word_of mode) kept.new (row_count table.now) }
{
    let mut families = [Family { parent: 0, end: 0 }; ROW_LIMIT];
    find_families(table, &mut families);
    let device = Device {
        table,
        families: &families,
    };
    for row in 0..table.len() / ROW_WORDS {
        kept[row] = stays(set, &device, kept, mode, row);
    }
}
