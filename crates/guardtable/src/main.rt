// Fills a word book with guards, tries one more, and asks every guard in every mode, free and held.
#![tactic(auto)]

ghost use Rattle.std.specs.Prelude.{◌≡◌, ◌+◌, ◌≤◌, true, length, OnOk};
ghost use Rattle.guards.specs.Calls.{named};

use anyhow::anyhow;
use faults::Fault;
use guards::{Entry, GuardBook};
use heldbook::Held;
use std::alloc::Global;
use wordbook::WordBook;

#[cfg(test)]
mod tests;

// a triple valve has four positions: release, service, lap and emergency
const VALVE_SWITCHES: usize = 2;

const HELD_SWITCH: usize = 0;

// What to enter as guard n, from the guards before it.
fn trial_entry(n: usize) -> Entry
    requires { 1 ≤ n }
    ensures { named 2 n result ≡ true }
{
    match n % 4 {
        0 => Entry::Switch(n / 4 % 2),
        1 => Entry::Not(n / 2),
        2 => Entry::Both(n - 1, n / 2),
        _ => Entry::Either(n - 1, n / 2),
    }
}

// Enters the next guard of the trial.
#[tactic(auto, using(guards::proofs::Entries::one_more))]
fn enter_next<B: GuardBook>(book: &mut B) -> Result<usize, Fault>
    ensures { OnOk result (length (B.meaning book.new).guards ≡ length (B.meaning book.old).guards + 1) }
{
    book.enter(trial_entry(book.guards()))
}

// Enters guards until 64 stand.
fn fill<B: GuardBook>(book: &mut B) -> Result<(), Fault>
    ensures { OnOk result (length (B.meaning book.new).guards ≡ 64) }
{
    for _ in book.guards()..64 {
        enter_next(book)?;
    }
    Ok(())
}

// What every guard says in every mode with the switches of `on` put on, guard by guard.
fn ask_all<B: GuardBook>(alloc: Global, book: &B, on: usize) -> anyhow::Result<Vec<bool>> {
    let mut answers = Vec::new(alloc);
    for guard in 0..book.guards() {
        for mode in 0..book.modes() {
            let Ok(answer) = book.ask(guard, mode | on) else {
                return Err(anyhow!("a standing guard was not answered"));
            };
            answers.push(answer)?;
        }
    }
    Ok(answers)
}

// At how many places the two lists give the same answer.
fn alike(one: &[bool], other: &[bool]) -> usize
    ensures { result ≤ length one.now }
{
    one.iter().zip(other).filter(|(a, b)| a == b).count()
}

// Fills a new book and tries one guard more.
fn filled(rt: &impl Print, alloc: Global) -> anyhow::Result<WordBook> {
    let mut book = WordBook::new(VALVE_SWITCHES);
    let first = book.guards();
    println!(rt; "triple valve: {} switches, {first} guard", book.switches())?;
    if let Err(fault) = fill(&mut book) {
        println!(rt; "{fault}")?;
    }
    let guards = book.guards();
    println!(rt; "entered {}: {guards} guards", guards.saturating_sub(first))?;
    let before = ask_all(alloc, &book, 0)?;
    match enter_next(&mut book) {
        Ok(n) => println!(rt; "entered as guard {n}")?,
        Err(fault) => println!(rt; "{fault}")?,
    }
    let after = ask_all(alloc, &book, 0)?;
    println!(rt;
        "asked again: {} of {} answers as before",
        alike(&before, &after),
        before.len()
    )?;
    Ok(book)
}

// Asks the same guards with one switch held on.
fn held(rt: &impl Print, alloc: Global, book: WordBook) -> anyhow::Result<()> {
    let free = ask_all(alloc, &book, 0)?;
    let on = ask_all(alloc, &book, 1 << HELD_SWITCH)?;
    let book = Held::new(book, HELD_SWITCH, true);
    let through = ask_all(alloc, &book, 0)?;
    println!(rt; "switch {HELD_SWITCH} held on: {} guards", book.guards())?;
    println!(rt;
        "asked: {} of {} answers as with the switch on",
        alike(&on, &through),
        on.len()
    )?;
    println!(rt;
        "asked: {} of {} answers as in the free book",
        alike(&free, &through),
        free.len()
    )?;
    Ok(())
}

fn main(rt: HostRuntime) -> anyhow::Result<()> {
    let book = filled(&rt, rt.alloc())?;
    held(&rt, rt.alloc(), book)
}
