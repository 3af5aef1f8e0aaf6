// The kept rows: how many, and their words.
ghost use Rattle.std.specs.Prelude.{◌≡◌, ◌≤◌, length};
ghost use Rattle.std.specs.List.{count_by};
ghost use Rattle.std.proofs.lemmas.List.Edits.{sets};
ghost use Rattle.tables.specs.Words.{row_count};
ghost use Rattle.logic.specs.Parts.{words_of};
ghost use Rattle.parts.specs.Sending.{rows_sent};

use base::copy_at;
use tables::ROW_WORDS;

// How many rows are kept.
pub(crate) fn count_kept(kept: &[bool]) -> usize
    ensures { result ≡ count_by (λ k. k) kept.now }
{
    kept.iter().filter(|k| **k).count()
}

// Writes the kept rows' words, in their order, at the start of the output.
pub(crate) fn send(table: &[u32], kept: &[bool], out: &mut [u32])
    requires rows { row_count table.now ≤ length kept.now }
    requires room { length (words_of (rows_sent table.now kept.now 0 (row_count table.now))) ≤ length out.old }
    ensures { out.new ≡ sets out.old 0 (words_of (rows_sent table.now kept.now 0 (row_count table.now))) }
{
    // Kept: the place grows with a kept row only, and not with each row as an iterator's count does.
    let mut at = 0;
    for row in 0..table.len() / ROW_WORDS {
        let stays = kept[row];
        if stays {
            copy_at(out, at, &table[ROW_WORDS * row..ROW_WORDS * (row + 1)]);
            at += ROW_WORDS;
        }
    }
}
