// Reads a rule file and a pool file by name and prints the text for them. What a file has and what is printed no contract can say:
// the work is in `checker::report`.
#![tactic(auto)]

ghost use Rattle.std.specs.Prelude.{◌≤◌, length};
ghost use Rattle.session.specs.Session.{IsReport};

use std::io::{Read, Write, writer};
use std::rt::Files;
use std::{fs, str};

// One byte more than the longest file, so that a longer one is seen.
const FILE_ROOM: usize = 65537;

// No text of the program is longer.
const TEXT_ROOM: usize = 64;

// Reads until the buffer is full, the input ends or a read fails: the number of bytes read.
fn fill<F: Read>(file: &mut F, buffer: &mut [u8]) -> usize
    ensures { result ≤ length buffer.new }
{
    let mut n = 0;
    // Kept: (a) no heap: the library's read_to_end wants a Vec, and its read_exact doesn't tell how much a short file has.
    while n < buffer.len() {
        match file.read(&mut buffer[n..]) {
            Ok(0) | Err(_) => return n,
            Ok(more) => n += more,
        }
    }
    n
}

// Reads the file from its start, as far as the buffer goes: its number of bytes. A file that can't be opened counts as empty.
fn load<R: Files>(rt: &R, path: &[u8], buffer: &mut [u8]) -> usize
    ensures { result ≤ length buffer.new }
{
    let Ok(name) = str::from_utf8(path) else {
        return 0;
    };
    let Ok(mut file) = fs::open(rt, name) else {
        return 0;
    };
    fill(&mut file, buffer)
}

// Prints the text for the two files: its number of bytes.
pub fn run<R: Files + Print>(rt: &R, rule: &[u8], pool: &[u8]) -> usize
    ensures { IsReport result }
{
    let mut first = [0u8; FILE_ROOM];
    let mut second = [0u8; FILE_ROOM];
    let mut text = [0u8; TEXT_ROOM];
    let m = load(rt, rule, &mut first);
    let n = load(rt, pool, &mut second);
    let k = checker::report(&first[..m], &second[..n], &mut text);
    // A failed write is not told.
    let _written = writer(rt).write_all(&text[..k]).is_ok();
    k
}
