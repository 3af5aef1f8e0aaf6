// Powers of ten, and a number's digits by subtracting them: small collectors can't afford a division for each.
#![tactic(auto)]

ghost use Rattle.std.specs.Prelude.{◌≡◌};
ghost use Rattle.powers.specs.Powers.{power_at, digit_at, Subtracted};

// No word has more digits.
pub const WORD_DIGITS: usize = 10;

const LAST: usize = WORD_DIGITS - 1;

// The powers of ten that are words.
const POWERS: [u32; WORD_DIGITS] = [
    1, 10, 100, 1000, 10000, 100000, 1000000, 10000000, 100000000, 1000000000,
];

// A digit, which is how many times its power was subtracted, and what is left.
#[derive(Clone, Copy)]
pub struct Digit {
    pub times: u32,
    pub rest: u32,
}

// The power of ten at i, past the table its last one.
pub fn power(i: usize) -> u32
    ensures { result ≡ power_at i }
{
    POWERS.get(i).copied().unwrap_or(POWERS[LAST])
}

// The digit of v at the power i, where v has none above it: the power is subtracted until less than it is left.
// Kept: the kit's `itoa` divides, and small collectors can't afford a division for each digit.
pub fn digit_at(v: u32, i: usize) -> Digit
    ensures digit { result ≡ digit_at v i }
    ensures subtracted { Subtracted v i result }
{
    let p = power(i);
    let mut times = 0;
    let mut rest = v;
    while p <= rest {
        rest -= p;
        times += 1;
    }
    Digit { times, rest }
}
