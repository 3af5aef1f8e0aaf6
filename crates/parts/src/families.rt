// The family of each of one device's rows: its parent, and where its children end.
ghost use Rattle.std.specs.Prelude.{◌≡◌, ◌<◌, length};
ghost use Rattle.tables.specs.Words.{row_count};
ghost use Rattle.tables.specs.Tables.{row_limit};
ghost use Rattle.parts.specs.Families.{parent_of, Families, OneDevice};

use base::partition_point;
use tables::{ROW_WORDS, row_at};

// The number of a row's parent, or the row's own where it has none; and a row from which on none is its child, behind the row itself.
// Kept: the row's own number for no parent: an Option would make this work array half as large again in 128 KiB of stack.
#[derive(Clone, Copy)]
pub struct Family {
    pub parent: u16,
    pub end: u16,
}

// The number of a row's parent, or the row's own where it has none. Rows of one device rise by `at`: it is looked for by halves.
fn parent_of(table: &[u32], row: usize) -> usize
    requires one_device { OneDevice table.now }
    requires row_bound { row < row_count table.now }
    ensures { result ≡ parent_of table.now row }
{
    let up = row_at(table, row).up;
    let found = partition_point(0, row, |i| row_at(table, i).at < up);
    if found < row && row_at(table, found).at == up {
        return found;
    }
    row
}

// Writes each row's. Its end is one more than the number of its last child, or than its own.
pub(crate) fn find_families(table: &[u32], families: &mut [Family])
    requires one_device { OneDevice table.now }
    requires sized { length families.old ≡ row_limit }
    ensures { Families table.now families.new }
{
    for row in 0..table.len() / ROW_WORDS {
        let parent = parent_of(table, row);
        let end = (row + 1) as u16;
        families[row] = Family {
            parent: parent as u16,
            end,
        };
        families[parent].end = end;
    }
}
