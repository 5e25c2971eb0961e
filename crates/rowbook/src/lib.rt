// A guard book that keeps each entry with the numbers that it names, and works a question out.
#![tactic(auto)]

ghost use Rattle.std.specs.Prelude.{◌≡◌, ℕ, ◌+◌, ◌<◌, ◌≤◌, true, length, slice_index_or};
ghost use Rattle.guards.specs.declared.entry.Entry.TheVariants.{Switch};
ghost use Rattle.guards.specs.Meaning.{says, modes, new_book};
ghost use Rattle.guards.specs.Calls.{named};
ghost use Rattle.rowbook.specs.Rows.{says_by};
ghost use Rattle.rowbook.specs.RowsLemmas.{rows_sound};
ghost use Rattle.std.proofs.Common.{rules};

use arrayvec::ArrayVec;
use faults::Fault;
use guards::{Entry, GuardBook};

// for up to 16 switches; guard i + 1 is entry i
#[derive(Drop)]
pub struct RowBook {
    switches: usize,
    entries: ArrayVec<Entry, 63>,
    ghost few: { switches ≤ 16 },
    ghost room: { length entries.items ≤ 63 },
    ghost stands: { (i : ℕ) → i < length entries.items → named switches (i + 1) (slice_index_or entries.items i (Switch 0)) ≡ true },
}

impl RowBook {
    ghost use Rattle.rowbook.specs.RowBook.{of_rows};

    // A book with free switches and guard 0 alone; without switches where `check_switches` would refuse them.
    pub fn new(switches: usize) -> Self
        ensures { of_rows result ≡ new_book 16 switches }
    {
        RowBook {
            switches: Self::switches_made(switches),
            entries: ArrayVec::new(),
        }
    }

    // What an entry says in a mode, by the answers of the guards before it.
    fn worked(&self, entry: Entry, mode: usize, answers: &[bool]) -> bool
        requires { named self.now.switches (length answers.now) entry ≡ true }
        ensures { result ≡ says_by answers.now entry mode }
    {
        match entry {
            Entry::Switch(s) => (mode >> s) & 1 == 1,
            Entry::Not(g) => !answers[g],
            Entry::Both(g, h) => answers[g] & answers[h],
            Entry::Either(g, h) => answers[g] | answers[h],
        }
    }

    // The answer of a standing guard, by one pass over the entries before it and its own.
    fn answer(&self, guard: usize, mode: usize) -> bool
        requires stands { guard < length (of_rows self.now).guards }
        requires in_modes { mode < modes (of_rows self.now) }
        ensures { result ≡ says (of_rows self.now) guard mode }
    {
        let mut answers = [true; 64];
        for (i, &entry) in self.entries[..guard].iter().enumerate() {
            answers[i + 1] = self.worked(entry, mode, &answers);
        }
        answers[guard]
    }
}

impl GuardBook for RowBook {
    ghost use Rattle.rowbook.specs.RowBook.{of_rows};

    ghost meaning = { of_rows };

    const MOST_SWITCHES: usize = 16;

    ghost MOST_SWITCHES = { 16 };

    ghost most_bound = { Prim.search rules };

    ghost sound = { λ x. rows_sound x.switches x.entries.items x.few x.room };

    #[tactic(auto, using(crate::proofs::Stays::width))]
    fn switches(&self) -> usize {
        self.switches
    }

    #[tactic(auto, using(crate::proofs::Stays::count))]
    fn guards(&self) -> usize {
        self.entries.len() + 1
    }

    #[tactic(auto, using(crate::proofs::Stays::count))]
    fn enter(&mut self, entry: Entry) -> Result<usize, Fault> {
        let guard = self.admit(entry)?;
        self.entries.push(entry);
        Ok(guard)
    }

    fn ask(&self, guard: usize, mode: usize) -> Result<bool, Fault> {
        self.admit_question(guard, mode)?;
        Ok(self.answer(guard, mode))
    }
}
