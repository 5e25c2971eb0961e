// The seventeen refusals of the analyser, with their details.
#![tactic(auto)]

ghost use Rattle.std.specs.Prelude.{◌≡◌, Some};
ghost use Rattle.faults.specs.Refusals.{refusal, bare, layer_name, refusal_text, ToldApart, record_named};

use std::error::Error;
use std::fmt;

// who declines
#[derive(Clone, Copy, Debug, PartialEq, Eq)]
pub enum Layer {
    File,
    Check,
    Book,
    Sheet,
}

impl fmt::Display for Layer {
    ghost output = { λ l. Some (layer_name l) };

    fn fmt<W: fmt::Write>(&self, f: &mut fmt::Formatter<W>) -> fmt::Result {
        f.write_str(match self {
            Layer::File => "file",
            Layer::Check => "check",
            Layer::Book => "book",
            Layer::Sheet => "sheet",
        })
    }
}

#[derive(Clone, Copy, Debug, PartialEq, Eq)]
pub enum Fault {
    // the file's length is below 8, above 8,192 or no multiple of 8
    BadLength,
    // the header asks for too much, or its last three bytes are not zero
    BadHeader,
    // a first or next number above the record count, by the record that names it, 0 for the header
    BadLink { record: usize },
    // an unknown letter, or an unused byte that is not zero
    BadRecord { record: usize },
    // the chain of records never reaches zero
    EndlessChain,
    // more switches than the kind of book takes, or more than 64 equations or variables
    TooLarge,
    // a switch number not below the number of switches
    NoSuchSwitch,
    // a guard number not in the book
    NoSuchGuard,
    // 64 guards stand
    GuardsFull,
    // an equation or variable number not below its count
    NoSuchPlace,
    // an order above 15
    OrderTooHigh,
    // 512 occurrences stand
    OccurrencesFull,
    // no occurrence to strike
    NothingToStrike,
    // a mode not below 2 to the number of switches
    NoSuchMode,
    // the assumed guard says no in the mode
    ModeNotAllowed,
    // the counts of active equations and active variables differ
    Uneven { equations: usize, variables: usize },
    // no perfect matching: a set of equations, and the variables at its filled places, as words
    Singular { equations: u64, variables: u64 },
}

impl Fault {
    // The number in the table of refusals.
    pub fn number(&self) -> u8
        ensures { result ≡ (refusal self.now).number }
    {
        match self {
            Fault::BadLength => 1,
            Fault::BadHeader => 2,
            Fault::BadLink { .. } => 3,
            Fault::BadRecord { .. } => 4,
            Fault::EndlessChain => 5,
            Fault::TooLarge => 6,
            Fault::NoSuchSwitch => 7,
            Fault::NoSuchGuard => 8,
            Fault::GuardsFull => 9,
            Fault::NoSuchPlace => 10,
            Fault::OrderTooHigh => 11,
            Fault::OccurrencesFull => 12,
            Fault::NothingToStrike => 13,
            Fault::NoSuchMode => 14,
            Fault::ModeNotAllowed => 15,
            Fault::Uneven { .. } => 16,
            Fault::Singular { .. } => 17,
        }
    }

    // What a check call answers: the bare number where it declines, and 0 otherwise.
    pub fn number_if(&self, declined: bool) -> u8
        ensures { result ≡ bare declined self.now }
    {
        if declined { self.number() } else { 0 }
    }

    // The layer that declines.
    pub fn layer(&self) -> Layer
        ensures { result ≡ (refusal self.now).layer }
    {
        match self {
            Fault::BadLength
            | Fault::BadHeader
            | Fault::BadLink { .. }
            | Fault::BadRecord { .. }
            | Fault::EndlessChain => Layer::File,
            Fault::TooLarge => Layer::Check,
            Fault::NoSuchSwitch | Fault::NoSuchGuard | Fault::GuardsFull | Fault::NoSuchMode => {
                Layer::Book
            }
            Fault::NoSuchPlace
            | Fault::OrderTooHigh
            | Fault::OccurrencesFull
            | Fault::NothingToStrike
            | Fault::ModeNotAllowed
            | Fault::Uneven { .. }
            | Fault::Singular { .. } => Layer::Sheet,
        }
    }

    // The record of the file that the refusal names, if it names one.
    pub fn record(&self) -> Option<usize>
        ensures { result ≡ record_named (refusal self.now) }
    {
        match self {
            Fault::BadLink { record } | Fault::BadRecord { record } => Some(*record),
            _ => None,
        }
    }
}

impl fmt::Display for Fault {
    ghost output = { λ f. Some (refusal_text (refusal f)) };

    fn fmt<W: fmt::Write>(&self, f: &mut fmt::Formatter<W>) -> fmt::Result {
        let (number, layer) = (self.number(), self.layer());
        write!(f, "refused {number} by the {layer}")
    }
}

impl Error for Fault {}

// No two faults say the same, so an answer is pinned by what it is told to say.
pub fn told_apart_stands()
    ensures { ToldApart }
{}
