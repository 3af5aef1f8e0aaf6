// One device's rows, handed back as a part of the table itself.
ghost use Rattle.std.specs.Prelude.{◌≡◌, ◌+◌, ◌*◌};
ghost use Rattle.base.specs.Search.{first};
ghost use Rattle.tables.specs.Words.{row_count};
ghost use Rattle.tables.specs.Tables.{other_device};
ghost use Rattle.tables.specs.Devices.{from_device, device_start, device_end, IsPart};
ghost use Rattle.tables.specs.Spans.{IsSpan};

use super::rows::{DEVICE, ROW_WORDS};
use super::tables::check_table;

// The first row whose device is at least d, or the number of rows where there is none.
// Kept: no option, since both ends of a device's rows are numbers that are compared and multiplied.
fn from_device(t: &[u32], d: u64) -> usize
    ensures { result ≡ from_device t.now d }
{
    let n = t.len() / ROW_WORDS;
    (0..n)
        .find(|&i| d <= u64::from(t[ROW_WORDS * i + DEVICE]))
        .unwrap_or(n)
}

// 14: the first row whose device isn't the first row's, or the number of rows.
// Kept: no option, since the crates above call it by this clause.
pub fn first_other(table: &[u32]) -> usize
    ensures { result ≡ first (other_device table.now) (row_count table.now) }
{
    let n = table.len() / ROW_WORDS;
    (0..n)
        .find(|&i| table[ROW_WORDS * i + DEVICE] != table[DEVICE])
        .unwrap_or(n)
}

// A run of words: from start up to end.
#[derive(Clone, Copy)]
pub struct Span {
    pub start: usize,
    pub end: usize,
}

// Where they stand: 0 and 0 if the device isn't there or the table has a fault.
pub fn device_span(table: &[u32], device: u32) -> Span
    ensures { IsSpan table.now device result.start result.end }
{
    if check_table(table).is_ok() {
        let d = u64::from(device);
        let a = from_device(table, d);
        let b = from_device(table, d + 1);
        if a < b {
            return Span {
                start: ROW_WORDS * a,
                end: ROW_WORDS * b,
            };
        }
        return Span { start: 0, end: 0 };
    }
    Span { start: 0, end: 0 }
}

// The rows of one device; the empty part at the table's start if the device isn't there or the table has a fault.
pub fn device_rows(table: &[u32], device: u32) -> &[u32]
    ensures { IsPart table.entry result (device_start table.now device) (device_end table.now device) }
{
    let s = device_span(table, device);
    let start = s.start;
    let end = s.end;
    &table[start..end]
}
