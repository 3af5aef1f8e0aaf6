// Rows as the code reads them, and their tests.
ghost use Rattle.std.specs.Prelude.{◌≡◌, not, ◌++◌, ◌+◌, ◌*◌, ◌%◌, ◌≤◌, ◌<◌, length};
ghost use Rattle.tables.specs.Words.{row_words, row_count, row_at, not_identifier, columns_of};
ghost use Rattle.tables.specs.Tables.{out_of_range, is_above, is_parent, is_deeper, is_twin};

use super::Row;

// The columns of a row, in the row's order.
pub const ROW_WORDS: usize = 6;

pub const DEVICE: usize = 0;

pub const AT: usize = 1;

pub const UP: usize = 2;

pub const DEEP: usize = 3;

pub const NAME: usize = 4;

pub const VALUE: usize = 5;

// The largest value: a word above it stands for a number below zero.
pub const VALUE_LIMIT: u32 = 2147483647;

pub fn row_at(t: &[u32], i: usize) -> Row
    requires { i < row_count t.now }
    ensures { result ≡ row_at t.now i }
{
    Row {
        device: t[ROW_WORDS * i + DEVICE],
        at: t[ROW_WORDS * i + AT],
        up: t[ROW_WORDS * i + UP],
        deep: t[ROW_WORDS * i + DEEP],
        name: t[ROW_WORDS * i + NAME],
        value: t[ROW_WORDS * i + VALUE],
    }
}

// Row i of the table that s and t make in a row.
pub(crate) fn row_of(s: &[u32], t: &[u32], i: usize) -> Row
    requires row_words_len { length s.now % row_words ≡ 0 }
    requires row_words_in_bounds { row_words * i + row_words ≤ length s.now + length t.now }
    ensures { result ≡ row_at (s.now ++ t.now) i }
{
    let n = s.len() / ROW_WORDS;
    if i < n {
        return row_at(s, i);
    }
    row_at(t, i - n)
}

// Whether a word may be a device, an at or a name.
pub(crate) fn is_identifier(word: u32) -> bool
    ensures { result ≡ not (not_identifier word) }
{
    (1..=65535).contains(&word)
}

pub(crate) fn out_of_range(r: Row) -> bool
    ensures { result ≡ out_of_range r }
{
    !is_identifier(r.device) || !is_identifier(r.at) || !is_identifier(r.name)
}

pub fn is_above(r: Row, b: Row) -> bool
    ensures { result ≡ is_above r b }
{
    (b.device, b.at) < (r.device, r.at)
}

pub fn is_parent(r: Row, p: Row) -> bool
    ensures { result ≡ is_parent r p }
{
    (p.device == r.device) & (p.at == r.up)
}

// In 64 bits: a depth of 4,294,967,295 plus one is no depth.
pub(crate) fn is_deeper(r: Row, p: Row) -> bool
    ensures { result ≡ is_deeper r p }
{
    u64::from(r.deep) == u64::from(p.deep) + 1
}

pub fn is_twin(r: Row, b: Row) -> bool
    ensures { result ≡ is_twin r b }
{
    b.up == r.up && (r.up == 0 || b.device == r.device) && b.name == r.name && b.value == r.value
}

// The words of a row, in the row's order.
pub fn columns_of(row: Row) -> [u32; ROW_WORDS]
    ensures { result ≡ columns_of row }
{
    [row.device, row.at, row.up, row.deep, row.name, row.value]
}
