// The signature of a mode, asked from a guard book about lists of guards and occurrences.
#![tactic(auto)]

ghost use Rattle.std.specs.Prelude.{◌≡◌, ℕ, take};
ghost use Rattle.guards.specs.Meaning.{says};
ghost use Rattle.sets.specs.Word.{member};
ghost use Rattle.sigma.specs.Tables.{IsTableOf, signature_of};
ghost use Rattle.reading.specs.Signatures.{active, weighed, signature_by};

use guards::GuardBook;
pub use occurrence::Occurrence;
use sets::{has, with};
use sigma::Table;

pub mod occurrence;

// A guard book set to a mode.
#[derive(Drop)]
pub struct Setting<'a, B: GuardBook> {
    pub book: &'a B,
    pub mode: usize,
}

impl<B: GuardBook> Setting<'_, B> {
    // What a guard says in the mode, and no where the book has no such guard or mode.
    pub fn says(&self, guard: usize) -> bool
        ensures { result ≡ says (B.meaning self.now.book.now) guard self.now.mode }
    {
        self.book.ask(guard, self.mode).unwrap_or(false)
    }

    // Those of the first 64 whose guards say yes, as a set.
    fn active(&self, guards: &[u8]) -> u64
        ensures { (k : ℕ) → member result k ≡ active (B.meaning self.now.book.now) self.now.mode (take 64 guards.now) k }
    {
        let mut set = 0;
        for (k, &guard) in guards.iter().enumerate() {
            if self.says(guard as usize) {
                set = with(set, k);
            }
        }
        set
    }

    // Counts an occurrence if its equation and its variable are active and then its guard says yes.
    fn weigh(&self, occurrence: &Occurrence, table: &mut Table)
        ensures { IsTableOf table.old.equations table.old.variables (weighed (B.meaning self.now.book.now) self.now.mode table.old occurrence.now) table.new }
    {
        let equation = occurrence.equation as usize;
        let variable = occurrence.variable as usize;
        if has(table.equations, equation)
            && has(table.variables, variable)
            && self.says(occurrence.guard as usize)
        {
            table.count(equation, variable, occurrence.order);
        }
    }

    // The signature in the mode: of the first 64 equations and variables with these guards, and of these occurrences.
    pub fn signature(&self, equations: &[u8], variables: &[u8], occurrences: &[Occurrence]) -> Table
        ensures { signature_of result ≡ signature_by (B.meaning self.now.book.now) (take 64 equations.now) (take 64 variables.now) occurrences.now self.now.mode }
    {
        let mut table = Table::new(self.active(equations), self.active(variables));
        for occurrence in occurrences {
            self.weigh(occurrence, &mut table);
        }
        table
    }
}
