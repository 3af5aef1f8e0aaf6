// The archive's order of a table's words: column after column, each word but a column's first replaced by its difference from the row
// above. And back.
#![tactic(auto)]

ghost use Rattle.std.specs.Prelude.{◌≡◌, ◌+◌, ◌*◌, ◌<◌, ◌≤◌, length, take};
ghost use Rattle.std.proofs.lemmas.List.Edits.{sets};
ghost use Rattle.tables.specs.Answers.{unless, fitting};
ghost use Rattle.tables.specs.declared.refusals.Fault.TheVariants.{Rows};
ghost use Rattle.tables.specs.Words.{word, whole, row_words, row_count};
ghost use Rattle.archive.specs.Archive.{words_below, archived_word, to_columns, to_columns_answer, to_columns_out};
ghost use Rattle.archive.specs.Archive.{restored_word, from_columns, from_columns_answer, from_columns_out};

use tables::{Answer, Fault, ROW_WORDS, Refusal};

// The number of words, as many in both orders, or the refusal.
fn reorder_answer(words: &[u32], room: usize) -> Answer
    ensures { result ≡ unless (whole row_words words.now) Rows (fitting words.now room) }
{
    if words.len() % ROW_WORDS != 0 {
        return Err(Refusal::of(Fault::Rows));
    }
    if room < words.len() {
        return Err(Refusal::of(Fault::ShortOutput));
    }
    Ok(words.len())
}

// Where word i of column c stands in the archive's order; `words`, in either order, tell how many rows there are.
fn column_place(words: &[u32], c: usize, i: usize) -> usize
    requires { (c < row_words) × (i < row_count words.now) }
    ensures { (result ≡ row_count words.now * c + i) × (result < length words.now) }
{
    let n = words.len() / ROW_WORDS;
    n * c + i
}

// Word c of row i.
fn word_at(table: &[u32], i: usize, c: usize) -> u32
    requires { (i < row_count table.now) × (c < row_words) }
    ensures { result ≡ word row_words table.now i c }
{
    table[ROW_WORDS * i + c]
}

// Word i of column c.
fn archived_word(table: &[u32], c: usize, i: usize) -> u32
    requires { (c < row_words) × (i < row_count table.now) }
    ensures { result ≡ archived_word row_words table.now c i }
{
    let word = word_at(table, i, c);
    if i == 0 {
        return word;
    }
    word.wrapping_sub(word_at(table, i - 1, c))
}

// Kept: (d) a column reads the table that is given, a row the rows written before it: one loop for both takes a closure over its output, and a longer contract than both.
// Writes column c.
fn put_column(table: &[u32], c: usize, columns: &mut [u32])
    requires { (c < row_words) × (length table.now ≤ length columns.old) }
    ensures { columns.new ≡ sets columns.old (row_count table.now * c)
        (words_below (archived_word row_words table.now c) (row_count table.now)) }
{
    for i in 0..table.len() / ROW_WORDS {
        columns[column_place(table, c, i)] = archived_word(table, c, i);
    }
}

// Writes every column.
fn put_columns(table: &[u32], columns: &mut [u32])
    requires { length table.now ≤ length columns.old }
    ensures { columns.new ≡ sets columns.old 0 (to_columns row_words table.now) }
{
    for c in 0..ROW_WORDS {
        put_column(table, c, columns);
    }
}

// The table's words in the archive's order go to the start of `columns`; their number, or the refusal.
pub fn to_columns(table: &[u32], columns: &mut [u32]) -> Answer
    ensures answer { result ≡ to_columns_answer table.now (length columns.old) }
    ensures words { columns.new ≡ to_columns_out table.now columns.old }
{
    let words = reorder_answer(table, columns.len())?;
    put_columns(table, columns);
    Ok(words)
}

// Word c of row i, where the rows before it are in the table.
fn restored_word(columns: &[u32], i: usize, c: usize, table: &[u32]) -> u32
    requires c_lt_row_words { (c < row_words) × (i < row_count columns.now) × (length columns.now ≤ length table.now) }
    requires table_value { take (row_words * i) table.now ≡ take (row_words * i) (from_columns row_words columns.now) }
    ensures { result ≡ restored_word (row_count columns.now) columns.now i c }
{
    let word = columns[column_place(columns, c, i)];
    if i == 0 {
        return word;
    }
    word.wrapping_add(word_at(table, i - 1, c))
}

// Writes row i, where the rows before it are in the table.
fn put_row(columns: &[u32], i: usize, table: &mut [u32])
    requires i_bound { (i < row_count columns.now) × (length columns.now ≤ length table.old) }
    requires table_value { take (row_words * i) table.old ≡ take (row_words * i) (from_columns row_words columns.now) }
    ensures { table.new ≡ sets table.old (row_words * i)
        (words_below (restored_word (row_count columns.now) columns.now i) row_words) }
{
    for c in 0..ROW_WORDS {
        table[ROW_WORDS * i + c] = restored_word(columns, i, c, table);
    }
}

// Writes every row.
fn put_rows(columns: &[u32], table: &mut [u32])
    requires { length columns.now ≤ length table.old }
    ensures { table.new ≡ sets table.old 0 (from_columns row_words columns.now) }
{
    for i in 0..columns.len() / ROW_WORDS {
        put_row(columns, i, table);
    }
}

// The table whose words in the archive's order are `columns` goes to the start of `table`; the number of its words, or the refusal.
pub fn from_columns(columns: &[u32], table: &mut [u32]) -> Answer
    ensures answer { result ≡ from_columns_answer columns.now (length table.old) }
    ensures words { table.new ≡ from_columns_out columns.now table.old }
{
    let words = reorder_answer(columns, table.len())?;
    put_rows(columns, table);
    Ok(words)
}
