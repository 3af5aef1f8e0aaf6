// Entries as the code reads them, and their tests.
ghost use Rattle.std.specs.Prelude.{◌≡◌, ◌+◌, ◌*◌, ◌≤◌, ◌<◌, length};
ghost use Rattle.base.specs.Search.{sum_below};
ghost use Rattle.tables.specs.Words.{entry_words, entry_count, entry_at};
ghost use Rattle.tables.specs.Rules.{unknown_kind, bad_word, bad_place, bad_child, unbound, is_quantifier, is_child, namings, around, entry_limit};

use super::Entry;
use super::rows::is_identifier;

// The words of an entry, in the entry's order.
pub const ENTRY_WORDS: usize = 4;

pub const KIND: usize = 0;

pub const A: usize = 1;

pub const B: usize = 2;

pub const C: usize = 3;

// The name word of a quantifier that takes rows of any name.
pub const ANY_NAME: u32 = 0;

// b of a comparison to a constant; and to a parameter, in templates only.
pub const TO_CONSTANT: u32 = 1;

pub const TO_PARAMETER: u32 = 2;

pub fn entry_at(rule: &[u32], i: usize) -> Entry
    requires { i < entry_count rule.now }
    ensures { result ≡ entry_at rule.now i }
{
    Entry {
        kind: rule[ENTRY_WORDS * i + KIND],
        a: rule[ENTRY_WORDS * i + A],
        b: rule[ENTRY_WORDS * i + B],
        c: rule[ENTRY_WORDS * i + C],
    }
}

pub(crate) fn unknown_kind(e: Entry) -> bool
    ensures { result ≡ unknown_kind e }
{
    !matches!(e.kind, 1..=9)
}

// b of a comparison is at most `most`.
pub(crate) fn bad_word(most: u32, e: Entry) -> bool
    ensures { result ≡ bad_word most e }
{
    match e.kind {
        1 => e.b != 0 || e.c != 0,
        2..=4 => e.c != 0,
        5..=6 => e.c != ANY_NAME && !is_identifier(e.c),
        7..=9 => most < e.b,
        _ => false,
    }
}

// Whether no child of entry i of n may stand at j.
fn bad_place(n: usize, i: usize, j: u32) -> bool
    ensures { result ≡ bad_place n i j }
{
    let j = j as usize;
    j <= i || n <= j
}

pub(crate) fn bad_child(n: usize, i: usize, e: Entry) -> bool
    ensures { result ≡ bad_child n i e }
{
    match e.kind {
        1 | 5..=6 => bad_place(n, i, e.a),
        2..=4 => bad_place(n, i, e.a) || bad_place(n, i, e.b),
        _ => false,
    }
}

// d variables are bound at the entry.
pub(crate) fn unbound_variable(d: usize, e: Entry) -> bool
    ensures { result ≡ unbound d e }
{
    match e.kind {
        5..=6 => d < e.b as usize,
        7..=9 => d <= e.a as usize || (e.b == 0 && d <= e.c as usize),
        _ => false,
    }
}

pub(crate) fn is_quantifier(e: Entry) -> bool
    ensures { result ≡ is_quantifier e }
{
    matches!(e.kind, 5..=6)
}

// How many child places of e name j.
fn namings_of(e: Entry, j: usize) -> usize
    ensures value { result ≡ namings e j }
    ensures upper_bound { result ≤ 2 }
{
    let left = e.a as usize == j;
    let right = e.b as usize == j;
    match e.kind {
        1 | 5..=6 => usize::from(left),
        2..=4 => usize::from(left) + usize::from(right),
        _ => 0,
    }
}

fn is_child(e: Entry, j: usize) -> bool
    ensures { result ≡ is_child e j }
{
    0 < namings_of(e, j)
}

// How many child places of the n entries name j.
pub(crate) fn times_named(rule: &[u32], n: usize, j: usize) -> usize
    requires { (entry_words * n ≤ length rule.now) × (n ≤ entry_limit) }
    ensures { result ≡ sum_below (λ i. namings (entry_at rule.now i) j) n }
{
    let mut sum = 0;
    for i in 0..n {
        sum += namings_of(entry_at(rule, i), j);
    }
    sum
}

// The number of quantifiers around entry j: its parent is looked for among the entries below it, then the parent's parent.
pub(crate) fn quantifiers_around(rule: &[u32], j: usize) -> usize
    requires { entry_words * j ≤ length rule.now }
    ensures value { result ≡ around rule.now j }
    ensures upper_bound { result ≤ j }
{
    let mut count = 0;
    let mut inner = j;
    for i in (0..j).rev() {
        let e = entry_at(rule, i);
        if is_child(e, inner) {
            inner = i;
            count += usize::from(is_quantifier(e));
        }
    }
    count
}
