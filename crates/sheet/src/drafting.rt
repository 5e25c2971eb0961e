// The drafting calls, and the passage between draft and issued sheet.
ghost use Rattle.std.specs.Prelude.{◌≡◌, ◌&&◌, if◌then◌else◌, Ok, Err};
ghost use Rattle.faults.specs.declared.Fault.TheVariants.{NoSuchGuard, NoSuchPlace};
ghost use Rattle.guards.specs.Meaning.{modes};
ghost use Rattle.guards.specs.declared.entry.Entry.TheVariants.{Switch, Not, Both, Either};
ghost use Rattle.sheet.specs.declared.call.Change.TheVariants.{Equation, Variable, Place, Strike, Assume};
ghost use Rattle.sheet.specs.Ledger.{Bounded};
ghost use Rattle.sheet.specs.Calls.{Drafts, Enters, has_guard, has_equation, has_variable, new_sheet};

use crate::lines::{Lines, put_under};
use crate::{Draft, Issued, check_counts};
use faults::Fault;
use guards::{Entry, GuardBook};
use reading::Occurrence;

impl<B: GuardBook> Draft<B> {
    pub fn new(book: B, equations: usize, variables: usize) -> Self
        ensures { result ≡ new_sheet (B.meaning book) equations variables }
    {
        let lines = if check_counts(equations, variables) == 0 {
            Lines::new(equations, variables)
        } else {
            Lines::new(0, 0)
        };
        Self { book, lines }
    }

    // The new guard's number, or why it is not entered.
    fn enter(&mut self, entry: Entry) -> Result<usize, Fault>
        ensures { Enters self.old entry result self.new }
    {
        self.book.enter(entry)
    }

    pub fn enter_switch(&mut self, switch: usize) -> Result<usize, Fault>
        ensures { Enters self.old (Switch switch) result self.new }
    {
        self.enter(Entry::Switch(switch))
    }

    pub fn enter_not(&mut self, guard: usize) -> Result<usize, Fault>
        ensures { Enters self.old (Not guard) result self.new }
    {
        self.enter(Entry::Not(guard))
    }

    pub fn enter_both(&mut self, one: usize, other: usize) -> Result<usize, Fault>
        ensures { Enters self.old (Both one other) result self.new }
    {
        self.enter(Entry::Both(one, other))
    }

    pub fn enter_either(&mut self, one: usize, other: usize) -> Result<usize, Fault>
        ensures { Enters self.old (Either one other) result self.new }
    {
        self.enter(Entry::Either(one, other))
    }

    // The number of a guard of the book.
    fn standing(&self, guard: usize) -> Result<u8, Fault>
        ensures { result ≡ (if has_guard self.now guard then Ok guard else Err NoSuchGuard) }
    {
        if guard < self.book.guards() {
            Ok(guard as u8)
        } else {
            Err(Fault::NoSuchGuard)
        }
    }

    // The numbers of an equation and a variable of the sheet.
    fn placed(&self, equation: usize, variable: usize) -> Result<(u8, u8), Fault>
        ensures { result ≡ (if has_equation self.now equation && has_variable self.now variable then Ok (equation, variable) else Err NoSuchPlace) }
    {
        if equation < self.lines.equations.len() && variable < self.lines.variables.len() {
            Ok((equation as u8, variable as u8))
        } else {
            Err(Fault::NoSuchPlace)
        }
    }

    // The equation is active where the guard says yes.
    pub fn guard_equation(&mut self, equation: usize, guard: usize) -> Result<(), Fault>
        ensures { Drafts self.old (Equation equation guard) result self.new }
    {
        let guard = self.standing(guard)?;
        put_under(&mut self.lines.equations, equation, guard)
    }

    // The variable is active where the guard says yes.
    pub fn guard_variable(&mut self, variable: usize, guard: usize) -> Result<(), Fault>
        ensures { Drafts self.old (Variable variable guard) result self.new }
    {
        let guard = self.standing(guard)?;
        put_under(&mut self.lines.variables, variable, guard)
    }

    // Adds an occurrence; an equal one may stand already.
    pub fn place(
        &mut self,
        equation: usize,
        variable: usize,
        order: usize,
        guard: usize,
    ) -> Result<(), Fault>
        ensures { Drafts self.old (Place equation variable order guard) result self.new }
    {
        let guard = self.standing(guard)?;
        let (equation, variable) = self.placed(equation, variable)?;
        if order > 15 {
            return Err(Fault::OrderTooHigh);
        }
        let occurrence = Occurrence {
            equation,
            variable,
            order: order as u8,
            guard,
        };
        self.lines
            .occurrences
            .try_push(occurrence)
            .map_err(|_| Fault::OccurrencesFull)
    }

    // Removes every occurrence with these three, whatever its order.
    pub fn strike(&mut self, equation: usize, variable: usize, guard: usize) -> Result<(), Fault>
        ensures { Drafts self.old (Strike equation variable guard) result self.new }
    {
        let guard = self.standing(guard)?;
        let (equation, variable) = self.placed(equation, variable)?;
        let named = (equation, variable, guard);
        let before = self.lines.occurrences.len();
        self.lines
            .occurrences
            .retain(|o| (o.equation, o.variable, o.guard) != named);
        if self.lines.occurrences.len() < before {
            Ok(())
        } else {
            Err(Fault::NothingToStrike)
        }
    }

    // Only the modes in which the guard says yes are allowed.
    pub fn assume(&mut self, guard: usize) -> Result<(), Fault>
        ensures { Drafts self.old (Assume guard) result self.new }
    {
        self.lines.assumed = self.standing(guard)?;
        Ok(())
    }

    // How many modes there are.
    pub fn modes(&self) -> usize
        ensures count { result ≡ modes self.now.book }
        ensures bounds { Bounded B.MOST_SWITCHES self.now }
    {
        self.book.modes()
    }

    pub fn issue(self) -> Issued<B>
        ensures same { result ≡ self }
        ensures bounds { Bounded B.MOST_SWITCHES self }
    {
        Issued { draft: self }
    }
}

impl<B: GuardBook> Issued<B> {
    pub fn reopen(self) -> Draft<B>
        ensures { result ≡ self }
    {
        let Issued { draft } = self;
        draft
    }
}
