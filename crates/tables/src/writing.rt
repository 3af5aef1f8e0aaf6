// Writing a file: any line of names, any number of columns, any signs.
ghost use Rattle.std.specs.Prelude.{◌≡◌, ◌+◌, ◌≤◌, ◌<◌, ◌^◌, length, leb};
ghost use Rattle.std.proofs.lemmas.List.Edits.{sets};
ghost use Rattle.tables.specs.Files.{number_text, word_text, lines_text, write_answer, write_out};
ghost use Rattle.tables.specs.Scans.{format_of, size_below, plain_length, count_from};

use super::columns::{Column, Format};
use super::refusals::{Answer, Fault, Refusal};
use super::rows::VALUE_LIMIT;
use base::copy_at;
use powers::{WORD_DIGITS, digit_at, power};

// How many digits a number has.
fn width(w: u32) -> usize
    ensures { (result ≡ length (number_text w)) × (result ≤ 10) }
{
    for n in 1..WORD_DIGITS {
        if w < power(n) {
            return n;
        }
    }
    WORD_DIGITS
}

// Puts the digits of w at `at`, from the first on, and answers the place past them. The last digit is what is left.
fn put_number(out: &mut [u8], at: usize, w: u32) -> usize
    requires { at + length (number_text w) ≤ length out.old }
    ensures place { result ≡ at + length (number_text w) }
    ensures bytes { out.new ≡ sets out.old at (number_text w) }
{
    let mut p = at;
    let mut v = w;
    for i in (1..width(w)).rev() {
        let digit = digit_at(v, i);
        out[p] = b'0' + digit.times as u8;
        v = digit.rest;
        p += 1;
    }
    out[p] = b'0' + v as u8;
    p + 1
}

// The size of a word that is to have a minus sign: one that may have a sign, and is below zero.
fn size_below(signed: bool, w: u32) -> Option<u32>
    ensures { result ≡ size_below signed w }
{
    (signed & (VALUE_LIMIT < w)).then(|| (u32::MAX - w) + 1)
}

// How many bytes a word takes, where it may have a sign or not.
fn word_width(signed: bool, w: u32) -> usize
    ensures { (result ≡ length (word_text signed w)) × (result ≤ 11) }
{
    match size_below(signed, w) {
        Some(size) => 1 + width(size),
        None => width(w),
    }
}

// Puts a word at `at`, with its minus sign if it may have one and is below zero, and answers the place past it.
fn put_word(out: &mut [u8], at: usize, signed: bool, w: u32) -> usize
    requires { at + length (word_text signed w) ≤ length out.old }
    ensures place { result ≡ at + length (word_text signed w) }
    ensures bytes { out.new ≡ sets out.old at (word_text signed w) }
{
    match size_below(signed, w) {
        Some(size) => {
            out[at] = b'-';
            put_number(out, at + 1, size)
        }
        None => put_number(out, at, w),
    }
}

// How many of the words are `from` or more.
fn count_from(words: &[u32], from: u32) -> usize
    ensures { result ≡ count_from from words.now }
{
    let mut count = 0;
    for w in words {
        count += usize::from(from <= *w);
    }
    count
}

// Whether the words fit without signs. Digits are counted power by power, so that a number's width is found once, where it is
// written, and only until there is room for all that may be left: nine for each wider number. Sixteen, as nine times might wrap.
fn plain_fits(words: &[u32], room: usize) -> bool
    requires { room < 2 ^ 63 }
    ensures { result ≡ leb (plain_length words.now) room }
{
    // A digit and the byte after it.
    let mut bytes = 2 * words.len();
    for n in 1..WORD_DIGITS {
        if room < bytes {
            return false;
        }
        let wider = count_from(words, power(n));
        if wider <= (room - bytes) >> 4 {
            return true;
        }
        bytes += wider;
    }
    bytes <= room
}

// Whether the words fit with their signs, word by word.
fn signed_fits(format: Format, words: &[u32], room: usize) -> bool
    ensures { result ≡ leb (length (lines_text (format_of format) words.now)) room }
{
    let mut left = room;
    let mut column = Column::default();
    for w in words {
        let n = word_width(format.may_sign(column), *w) + 1;
        if left < n {
            return false;
        }
        left -= n;
        column = format.column_after(column, *w);
    }
    true
}

// Whether the text of the words fits. Only words from 2147483648 up have a sign, and it adds a byte at most: where there is room for one with
// each of them, or there are none of them, the words need not be looked at one by one.
fn text_fits(format: Format, words: &[u32], room: usize) -> bool
    requires { room < 2 ^ 63 }
    ensures { result ≡ leb (length (lines_text (format_of format) words.now)) room }
{
    let signed = count_from(words, VALUE_LIMIT + 1);
    if room < signed {
        return false;
    }
    if plain_fits(words, room - signed) {
        return true;
    }
    (signed != 0) && signed_fits(format, words, room)
}

// Puts the words at `at`, each with the byte after it, and answers the place past them.
fn put_words(format: Format, words: &[u32], out: &mut [u8], at: usize) -> usize
    requires { at + length (lines_text (format_of format) words.now) ≤ length out.old }
    ensures place { result ≡ at + length (lines_text (format_of format) words.now) }
    ensures bytes { out.new ≡ sets out.old at (lines_text (format_of format) words.now) }
{
    let mut p = at;
    let mut column = Column::default();
    for w in words {
        p = put_word(out, p, format.may_sign(column), *w);
        out[p] = format.byte_after(column);
        p += 1;
        column = format.column_after(column, *w);
    }
    p
}

// Writes the words as a file with that line of names and that format, if the table's own checks accepted them.
pub(crate) fn write_file(
    names: &[u8],
    format: Format,
    checked: Answer,
    words: &[u32],
    out: &mut [u8],
) -> Answer
    ensures answer { result ≡ write_answer names.now (format_of format) checked words.now (length out.old) }
    ensures bytes { out.new ≡ write_out names.now (format_of format) checked words.now out.old }
{
    checked?;
    let h = names.len();
    if out.len() < h || !text_fits(format, words, out.len() - h) {
        return Err(Refusal::of(Fault::ShortOutput));
    }
    copy_at(out, 0, names);
    Ok(put_words(format, words, out, h))
}
