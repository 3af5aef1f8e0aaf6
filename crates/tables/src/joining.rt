// Joining: a table put behind another whose last device is smaller.
ghost use Rattle.std.specs.Prelude.{◌≡◌, ◌+◌, ◌≤◌, length};
ghost use Rattle.tables.specs.Joining.{follows, join_tables, join_answer, join_pool};

use super::refusals::{Answer, Fault, Refusal, refuse_at};
use super::rows::{ROW_WORDS, row_at};
use super::tables::{ROW_LIMIT, check_table};
use super::twins::first_twin;
use base::copy_at;

// 16: the second table's first device is above the first one's last; an empty side always fits.
fn fits_behind(s: &[u32], t: &[u32]) -> bool
    ensures { result ≡ follows s.now t.now }
{
    let m = s.len() / ROW_WORDS;
    if m == 0 {
        return true;
    }
    if t.len() / ROW_WORDS == 0 {
        return true;
    }
    row_at(s, m - 1).device < row_at(t, 0).device
}

// What joining s and t in a buffer of that many words answers.
fn join_tables(s: &[u32], t: &[u32], room: usize) -> Answer
    ensures { result ≡ join_tables s.now t.now room }
{
    check_table(s)?;
    check_table(t)?;
    if !fits_behind(s, t) {
        return Err(Refusal::of(Fault::Join));
    }
    let n = (s.len() + t.len()) / ROW_WORDS;
    if ROW_LIMIT < n {
        return Err(Refusal::of(Fault::TableLength));
    }
    refuse_at(Fault::Sibling, first_twin(s, t, n))?;
    if room < s.len() + t.len() {
        return Err(Refusal::of(Fault::ShortOutput));
    }
    Ok(s.len() + t.len())
}

// Puts the table t behind the table in the first `used` words of the pool, which then holds the joined one. The answer is the
// number of its words, `used` of the next joining.
pub fn join(pool: &mut [u32], used: usize, t: &[u32]) -> Answer
    ensures answer { result ≡ join_answer pool.old used t.now }
    ensures words { pool.new ≡ join_pool pool.old used t.now }
{
    if pool.len() < used {
        return Err(Refusal::of(Fault::TableLength));
    }
    let room = pool.len();
    let words = join_tables(&pool[..used], t, room)?;
    copy_at(pool, used, t);
    Ok(words)
}
