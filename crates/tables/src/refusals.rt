// What a call refuses: the fault, and its place.
ghost use Rattle.std.specs.Prelude.{◌≡◌};
ghost use Rattle.tables.specs.Answers.{value};
ghost use Rattle.tables.specs.Refusals.{number_of, refusal_at};

// The faults, in the order of their numbers.
#[derive(Clone, Copy, PartialEq, Eq)]
pub enum Fault {
    RuleLength,
    Kind,
    Word,
    Child,
    Naming,
    Nesting,
    Unbound,
    TableLength,
    Range,
    Order,
    Parent,
    Sibling,
    Mode,
    OtherDevice,
    Join,
    ShortOutput,
    FirstLine,
    Line,
    Counts,
    Blank,
    Parameters,
    Step,
    Absent,
    Removal,
    Depth,
    Rows,
}

impl Fault {
    // Its number in the C interface and in the program's text.
    pub fn number(self) -> u32
        ensures { result ≡ number_of self }
    {
        match self {
            Fault::RuleLength => 1,
            Fault::Kind => 2,
            Fault::Word => 3,
            Fault::Child => 4,
            Fault::Naming => 5,
            Fault::Nesting => 6,
            Fault::Unbound => 7,
            Fault::TableLength => 8,
            Fault::Range => 9,
            Fault::Order => 10,
            Fault::Parent => 11,
            Fault::Sibling => 12,
            Fault::Mode => 13,
            Fault::OtherDevice => 14,
            Fault::Join => 16,
            Fault::ShortOutput => 17,
            Fault::FirstLine => 18,
            Fault::Line => 19,
            Fault::Counts => 20,
            Fault::Blank => 21,
            Fault::Parameters => 22,
            Fault::Step => 23,
            Fault::Absent => 24,
            Fault::Removal => 25,
            Fault::Depth => 26,
            Fault::Rows => 28,
        }
    }
}

// A refused call: entries and rows are counted from 0, lines from 1, and the place is 0 for the rest.
#[derive(Clone, Copy, PartialEq, Eq)]
pub struct Refusal {
    pub fault: Fault,
    pub place: usize,
}

impl Refusal {
    // A refusal that has no place of its own.
    pub fn of(fault: Fault) -> Refusal
        ensures { result ≡ record { fault = fault; place = 0 } }
    {
        Refusal { fault, place: 0 }
    }
}

// What a call answers: its value, or the refusal.
pub type Answer = Result<usize, Refusal>;

// The value of an answer, 0 of a refused one.
pub fn value_of(answer: Answer) -> usize
    ensures { result ≡ value answer }
{
    answer.unwrap_or(0)
}

// Refuses the first place that has the fault, where a search found one.
pub fn refuse_at(fault: Fault, found: Option<usize>) -> Result<(), Refusal>
    ensures { result ≡ refusal_at fault found }
{
    match found {
        Some(place) => Err(Refusal { fault, place }),
        None => Ok(()),
    }
}
