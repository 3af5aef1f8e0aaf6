// How many rows a pool has.
ghost use Rattle.std.specs.Prelude.{◌≡◌};
ghost use Rattle.tables.specs.Words.{row_count};

use tables::ROW_WORDS;

pub(crate) fn row_count(pool: &[u32]) -> usize
    ensures { result ≡ row_count pool.now }
{
    pool.len() / ROW_WORDS
}
