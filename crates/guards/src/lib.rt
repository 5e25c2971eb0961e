// Guard books: switches, some of them held, and a list of guards, each a yes or no for every mode.
#![tactic(auto)]

ghost use Rattle.std.specs.Prelude.{◌≡◌, ℕ, ◌≤◌, length, nat_lt};
ghost use Rattle.faults.specs.declared.Fault.TheVariants.{TooLarge};
ghost use Rattle.faults.specs.Refusals.{told, bare};
ghost use Rattle.guards.specs.declared.entry.Entry.TheVariants.{Switch, Not, Both, Either};
ghost use Rattle.guards.specs.Meaning.{Meaning, Sound, modes, switches_made, SeenBySwitch};
ghost use Rattle.guards.specs.Calls.{Entered, admitted, answer, found, asked};

pub use entry::Entry;
use faults::Fault;

pub mod entry;

pub trait GuardBook {
    // what the book means
    ghost meaning: { Self → Meaning };

    // the greatest number of switches of this kind of book
    const MOST_SWITCHES: usize;

    ghost MOST_SWITCHES: { ℕ };

    fn switches(&self) -> usize
        ensures { result ≡ (meaning self.now).switches };

    fn guards(&self) -> usize
        ensures { result ≡ length (meaning self.now).guards };

    // The new guard's number, or why it is not entered.
    fn enter(&mut self, entry: Entry) -> Result<usize, Fault>
        ensures { Entered (meaning self.old) entry result (meaning self.new) };

    // What a guard says in a mode.
    fn ask(&self, guard: usize, mode: usize) -> Result<bool, Fault>
        ensures { told result ≡ asked (meaning self.now) guard mode };

    fn enter_switch(&mut self, switch: usize) -> Result<usize, Fault>
        ensures { Entered (meaning self.old) (Switch switch) result (meaning self.new) }
    {
        self.enter(Entry::Switch(switch))
    }

    fn enter_not(&mut self, guard: usize) -> Result<usize, Fault>
        ensures { Entered (meaning self.old) (Not guard) result (meaning self.new) }
    {
        self.enter(Entry::Not(guard))
    }

    fn enter_both(&mut self, one: usize, other: usize) -> Result<usize, Fault>
        ensures { Entered (meaning self.old) (Both one other) result (meaning self.new) }
    {
        self.enter(Entry::Both(one, other))
    }

    fn enter_either(&mut self, one: usize, other: usize) -> Result<usize, Fault>
        ensures { Entered (meaning self.old) (Either one other) result (meaning self.new) }
    {
        self.enter(Entry::Either(one, other))
    }

    // How many modes there are.
    fn modes(&self) -> usize
        ensures { result ≡ modes (meaning self.now) }
    {
        1 << self.switches()
    }

    // The number that the next guard takes, or why the entry is refused.
    fn admit(&self, entry: Entry) -> Result<usize, Fault>
        ensures { told result ≡ answer (meaning self.now) entry }
    {
        admit(self.switches(), self.guards(), entry)
    }

    // Nothing, or why the question is refused.
    fn admit_question(&self, guard: usize, mode: usize) -> Result<(), Fault>
        ensures { told result ≡ found (meaning self.now) guard mode }
    {
        if guard >= self.guards() {
            return Err(Fault::NoSuchGuard);
        }
        if mode >= self.modes() {
            return Err(Fault::NoSuchMode);
        }
        Ok(())
    }

    // 0, or the number of the refusal where a book of this kind cannot have so many switches.
    fn check_switches(switches: usize) -> u8
        ensures { result ≡ bare (nat_lt MOST_SWITCHES switches) TooLarge }
    {
        Fault::TooLarge.number_if(switches > Self::MOST_SWITCHES)
    }

    // How many switches a book made with this number has: none where the check refuses it.
    fn switches_made(switches: usize) -> usize
        ensures { result ≡ switches_made MOST_SWITCHES switches }
    {
        if Self::check_switches(switches) == 0 {
            switches
        } else {
            0
        }
    }

    // no kind states more than 16
    ghost most_bound: { MOST_SWITCHES ≤ 16 };

    ghost sound: { (x : Self) → Sound MOST_SWITCHES (meaning x) };
}

// The number of the next guard, where `switches` and `guards` stand, or why the entry is refused.
pub fn admit(switches: usize, guards: usize, entry: Entry) -> Result<usize, Fault>
    ensures { told result ≡ admitted switches guards entry }
{
    match entry {
        Entry::Switch(s) if s >= switches => Err(Fault::NoSuchSwitch),
        Entry::Not(g) if g >= guards => Err(Fault::NoSuchGuard),
        Entry::Both(g, h) | Entry::Either(g, h) if g >= guards || h >= guards => {
            Err(Fault::NoSuchGuard)
        }
        _ if guards < 64 => Ok(guards),
        _ => Err(Fault::GuardsFull),
    }
}

// The seen mode is what it is switch by switch: as held where held, and as in the mode where free.
pub fn seen_by_switch_stands()
    ensures { SeenBySwitch }
{}
