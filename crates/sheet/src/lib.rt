// A sheet over any guard book: a draft, on which guards and occurrences are entered, and an issued sheet, which is read.
#![tactic(auto)]

ghost use Rattle.std.specs.Prelude.{◌≡◌};
ghost use Rattle.faults.specs.Refusals.{bare};
ghost use Rattle.faults.specs.declared.Fault.TheVariants.{TooLarge};
ghost use Rattle.sheet.specs.Calls.{too_many};

pub use call::{Call, Change};
use faults::Fault;
use guards::GuardBook;
use lines::Lines;
use std::marker::Model;

pub mod call;
mod drafting;
mod lines;
mod modes;

// seen as its ledger
#[derive(Drop)]
pub struct Draft<B: GuardBook> {
    book: B,
    lines: Lines,
}

impl<B: GuardBook> Model for Draft<B> {
    ghost use Rattle.sheet.specs.Ledger.{Ledger};
    ghost use Rattle.sheet.specs.Lines.{of_lines};

    ghost Value = { Ledger };

    ghost view = { λ s. of_lines (B.GuardBook.meaning s.book) s.lines };
}

// a draft that is read and not drawn on; seen as its ledger
#[derive(Drop)]
pub struct Issued<B: GuardBook> {
    draft: Draft<B>,
}

impl<B: GuardBook> Model for Issued<B> {
    ghost use Rattle.sheet.specs.Ledger.{Ledger};

    ghost Value = { Ledger };

    ghost view = { λ s. s.draft };
}

// 0, or the number of the refusal where a sheet cannot have so many equations or variables.
pub fn check_counts(equations: usize, variables: usize) -> u8
    ensures { result ≡ bare (too_many equations variables) TooLarge }
{
    Fault::TooLarge.number_if(equations > 64 || variables > 64)
}
