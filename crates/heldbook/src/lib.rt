// A guard book over any other, with one of its switches held on or off.
#![tactic(auto)]

ghost use Rattle.std.specs.Prelude.{◌≡◌, nat_le};
ghost use Rattle.faults.specs.declared.Fault.TheVariants.{NoSuchSwitch};
ghost use Rattle.faults.specs.Refusals.{bare};
ghost use Rattle.heldbook.specs.Held.{held, of_held, mode_below};
ghost use Rattle.heldbook.specs.Over.{under_sound};
ghost use Rattle.std.proofs.Common.{rules};

use faults::Fault;
use guards::{Entry, GuardBook};
use std::marker::Model;

// holds a switch of the book below on or off, or nothing; seen as its hold and that book
#[derive(Drop)]
pub struct Held<B: GuardBook> {
    below: B,
    hold: Option<(usize, bool)>,
}

impl<B: GuardBook> Model for Held<B> {
    ghost use Rattle.std.specs.Prelude.{ℕ, Bool, Option};
    ghost use Rattle.heldbook.specs.Held.{Stands};

    ghost Value = { Option (ℕ × Bool) × B };

    ghost view = { λ x. (x.hold, x.below) };

    ghost invariant = { λ x. Stands x.hold (B.GuardBook.meaning x.below) };
}

impl<B: GuardBook> Held<B> {
    // 0, or the number of the refusal where the book has no such switch.
    pub fn check_switch(below: &B, switch: usize) -> u8
        ensures { result ≡ bare (nat_le (B.meaning below.now).switches switch) NoSuchSwitch }
    {
        Fault::NoSuchSwitch.number_if(switch >= below.switches())
    }

    // Holds a switch of the book below; nothing where `check_switch` would refuse it.
    pub fn new(below: B, switch: usize, on: bool) -> Self
        ensures { of_held B.meaning result ≡ held switch on (B.meaning below) }
    {
        let hold = (Self::check_switch(&below, switch) == 0).then_some((switch, on));
        Held { below, hold }
    }

    // A mode with the switch put where it is held.
    fn put(&self, mode: usize) -> usize
        ensures { result ≡ mode_below self.now.0 (B.meaning self.now.1) mode }
    {
        let Some((switch, on)) = self.hold else {
            return mode;
        };
        if on {
            mode | (1 << switch)
        } else {
            mode & !(1 << switch)
        }
    }
}

impl<B: GuardBook> GuardBook for Held<B> {
    ghost meaning = { λ x. of_held B.GuardBook.meaning x };

    const MOST_SWITCHES: usize = B::MOST_SWITCHES;

    ghost MOST_SWITCHES = { B.GuardBook.MOST_SWITCHES };

    ghost most_bound = { Prim.search rules };

    ghost sound = { λ x. under_sound x.0 (B.GuardBook.meaning x.1) _ (B.GuardBook.sound x.1) };

    fn switches(&self) -> usize {
        self.below.switches()
    }

    fn guards(&self) -> usize {
        self.below.guards()
    }

    fn enter(&mut self, entry: Entry) -> Result<usize, Fault> {
        self.below.enter(entry)
    }

    fn ask(&self, guard: usize, mode: usize) -> Result<bool, Fault> {
        self.below.ask(guard, self.put(mode))
    }
}
