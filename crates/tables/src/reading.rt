// Reading a file: any line of names, any number of columns, any signs.
ghost use Rattle.std.specs.Prelude.{◌≡◌, ◌+◌, ◌≤◌, ◌<◌, ◌^◌, length};
ghost use Rattle.tables.specs.Words.{word_limit};
ghost use Rattle.tables.specs.Files.{is_within, word_of, past_number, at_line};
ghost use Rattle.tables.specs.Files.{digit_step, may_end, other_step, step_of, at_start, scan_all, read_answer, read_out};
ghost use Rattle.tables.specs.Scans.{Sound, IsWord, format_of, digit, pending_after, stored_in, put_of, Fillable};

use super::columns::{Column, Format};
use super::refusals::{Answer, Fault, Refusal};
use super::rows::VALUE_LIMIT;

// Where reading stands in a number.
#[derive(Clone, Copy, PartialEq, Eq)]
pub enum Phase {
    BeforeNumber,
    AfterMinus,
    InDigits,
    AtFault,
}

// A number that is being read: its sign, and its value so far.
#[derive(Clone, Copy, Default)]
pub struct Number {
    pub minus: bool,
    pub value: u64,
}

impl Number {
    // The word that it stands for.
    fn word(self) -> u32
        requires { IsWord self.minus self.value }
        ensures { result ≡ word_of self.minus self.value }
    {
        if self.minus {
            return (4294967296 - self.value) as u32;
        }
        self.value as u32
    }

    // Whether it is within its limits, where it may have a sign or not.
    fn is_within(self, signed: bool) -> bool
        ensures { result ≡ is_within signed self.minus self.value }
    {
        let limit = u64::from(VALUE_LIMIT);
        match (signed, self.minus) {
            (false, minus) => !minus,
            (true, true) => (0 < self.value) & (self.value <= limit + 1),
            (true, false) => self.value <= limit,
        }
    }
}

// Where reading stands.
#[derive(Clone, Copy)]
pub struct Scan {
    pub phase: Phase,
    pub number: Number,
    pub column: Column,
    pub line: usize,
    pub count: usize,
}

// The digit of a byte.
#[tactic(auto, unfolding(crate::specs::Files::digit_of))]
fn digit(b: u8) -> Option<u64>
    ensures { result ≡ digit b }
{
    if b.is_ascii_digit() {
        Some(u64::from(b - b'0'))
    } else {
        None
    }
}

impl Scan {
    // The first line of values is line 2.
    fn at_start() -> Scan
        ensures { result ≡ at_start }
    {
        Scan {
            phase: Phase::BeforeNumber,
            number: Number::default(),
            column: Column::default(),
            line: 2,
            count: 0,
        }
    }

    // Past a number, before the next one.
    fn past_number(&mut self, format: Format)
        requires column { self.old.column.index < format.columns }
        requires line_bound { (self.old.line + 1 < 2 ^ 64) × (self.old.count + 1 < 2 ^ 64) }
        requires word { IsWord self.old.number.minus self.old.number.value }
        ensures { self.new ≡ past_number (format_of format) self.old }
    {
        let word = self.number.word();
        self.phase = Phase::BeforeNumber;
        self.number = Number::default();
        self.line += usize::from(format.is_last(self.column));
        self.column = format.column_after(self.column, word);
        self.count += 1;
    }

    #[tactic(auto, unfolding(crate::specs::Files::digit_step))]
    fn digit_step(&mut self, d: u64)
        requires { (self.old.number.value ≤ word_limit) × (d < 10) }
        ensures { self.new ≡ digit_step self.old d }
    {
        let grown = 10 * self.number.value + d;
        match self.phase {
            Phase::BeforeNumber | Phase::AfterMinus => {
                self.phase = Phase::InDigits;
                self.number.value = d;
            }
            Phase::InDigits if (0 < self.number.value) & (grown <= u64::from(u32::MAX)) => {
                self.number.value = grown;
            }
            _ => self.phase = Phase::AtFault,
        }
    }

    // Whether the byte b ends the number.
    fn may_end(&self, format: Format, b: u8) -> bool
        ensures { result ≡ may_end format.columns self.now b }
    {
        (self.phase == Phase::InDigits)
            & (b == format.byte_after(self.column))
            & self.number.is_within(format.may_sign(self.column))
    }

    #[tactic(auto, using(crate::proofs::Steps::end_word), unfolding(crate::specs::Files::other_step))]
    fn other_step(&mut self, format: Format, b: u8)
        requires sound { Sound (format_of format) self.old }
        requires line_bound { (self.old.line + 1 < 2 ^ 64) × (self.old.count + 1 < 2 ^ 64) }
        ensures { self.new ≡ other_step (format_of format) self.old b }
    {
        if self.may_end(format, b) {
            self.past_number(format);
            return;
        }
        if (self.phase == Phase::BeforeNumber) & (b == b'-') {
            self.phase = Phase::AfterMinus;
            self.number.minus = true;
            return;
        }
        self.phase = Phase::AtFault;
    }

    // Reads a byte.
    #[tactic(auto, unfolding(crate::specs::Files::step_of))]
    fn step(&mut self, format: Format, b: u8)
        requires sound { Sound (format_of format) self.old }
        requires line_bound { (self.old.line + 1 < 2 ^ 64) × (self.old.count + 1 < 2 ^ 64) }
        ensures { self.new ≡ step_of (format_of format) self.old b }
    {
        match digit(b) {
            Some(d) => self.digit_step(d),
            None => self.other_step(format, b),
        }
    }

    // Whether every line is ended.
    fn at_line(&self) -> bool
        ensures { result ≡ at_line self.now }
    {
        (self.phase == Phase::BeforeNumber) & (self.column.index == 0)
    }
}

// The state after all the bytes.
fn scan_all(format: Format, bytes: &[u8]) -> Scan
    ensures { result ≡ scan_all (format_of format) at_start bytes.now }
{
    let mut s = Scan::at_start();
    for b in bytes {
        s.step(format, *b);
    }
    s
}

// A number of lines that pass, and the place of its word.
#[derive(Clone, Copy, Default)]
pub struct Pending {
    pub number: Number,
    pub place: usize,
}

impl Pending {
    // The number after a byte.
    #[tactic(auto, unfolding(crate::specs::Scans::pending_after))]
    fn after(self, b: u8) -> Pending
        requires { (self.number.value ≤ word_limit) × (self.place + 1 < 2 ^ 64) }
        ensures { result ≡ pending_after self b }
    {
        let number = match digit(b) {
            Some(d) => Number {
                value: 10 * self.number.value + d,
                ..self.number
            },
            None if b == b'-' => Number {
                minus: true,
                ..self.number
            },
            None => {
                return Pending {
                    number: Number::default(),
                    place: self.place + 1,
                };
            }
        };
        Pending { number, ..self }
    }
}

// Stores the number that the step from n to r ended, if it ended one.
#[tactic(auto, unfolding(crate::specs::Scans::put_of))]
fn put(out: &mut [u32], n: Pending, r: Pending)
    requires place_in_bounds { n.place < r.place → n.place < length out.old }
    requires word { n.place < r.place → IsWord n.number.minus n.number.value }
    ensures { out.new ≡ put_of out.old n r }
{
    if n.place < r.place {
        out[n.place] = n.number.word();
    }
}

// Stores the words of lines that pass, so that columns and limits need no second look.
fn fill(bytes: &[u8], out: &mut [u32])
    requires { Fillable bytes.now out.old }
    ensures { out.new ≡ stored_in bytes.now out.old }
{
    let mut n = Pending::default();
    for b in bytes {
        let r = n.after(*b);
        put(out, n, r);
        n = r;
    }
}

// Reads a file with that line of names and that format: once for the answer, then once for the words, so that a refusal stores nothing.
pub(crate) fn read_file(names: &[u8], format: Format, file: &[u8], out: &mut [u32]) -> Answer
    ensures answer { result ≡ read_answer names.now (format_of format) file.now (length out.old) }
    ensures words { out.new ≡ read_out names.now (format_of format) file.now out.old }
{
    let Some(lines) = file.strip_prefix(names) else {
        return Err(Refusal {
            fault: Fault::FirstLine,
            place: 1,
        });
    };
    let s = scan_all(format, lines);
    if !s.at_line() {
        return Err(Refusal {
            fault: Fault::Line,
            place: s.line,
        });
    }
    if out.len() < s.count {
        return Err(Refusal::of(Fault::ShortOutput));
    }
    fill(lines, out);
    Ok(s.count)
}
