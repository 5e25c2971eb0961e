// A guard book that keeps each guard as one word: bit m of it is the answer in mode m.
#![tactic(auto)]

ghost use Rattle.std.specs.Prelude.{◌≡◌, ℕ, ◌<◌, ◌≤◌, true, length, slice_index};
ghost use Rattle.guards.specs.Meaning.{modes, new_book, on_in};
ghost use Rattle.guards.specs.Calls.{named, entry_says};
ghost use Rattle.wordbook.specs.Words.{SwitchWordsRule};
ghost use Rattle.wordbook.specs.WordsLemmas.{words_sound};
ghost use Rattle.std.proofs.Common.{rules};

use arrayvec::ArrayVec;
use faults::Fault;
use guards::{Entry, GuardBook};
use sets::has;

const SWITCH_WORDS: [u64; 6] = [
    0xAAAA_AAAA_AAAA_AAAA,
    0xCCCC_CCCC_CCCC_CCCC,
    0xF0F0_F0F0_F0F0_F0F0,
    0xFF00_FF00_FF00_FF00,
    0xFFFF_0000_FFFF_0000,
    0xFFFF_FFFF_0000_0000,
];

// for up to 6 switches
#[derive(Drop)]
pub struct WordBook {
    switches: usize,
    words: ArrayVec<u64, 64>,
    ghost few: { switches ≤ 6 },
    ghost room: { length words.items ≤ 64 },
    ghost ones: { slice_index words.items 0 ≡ 0xFFFF_FFFF_FFFF_FFFF },
}

// Bit m of the word of a switch is that switch's bit of m.
pub fn switch_words_stand()
    ensures { SwitchWordsRule }
{}

impl WordBook {
    ghost use Rattle.wordbook.specs.WordBook.{of_words};

    // A book with free switches and guard 0 alone; without switches where `check_switches` would refuse them.
    pub fn new(switches: usize) -> Self
        ensures { of_words result ≡ new_book 6 switches }
    {
        let mut words = ArrayVec::new();
        words.push(u64::MAX);
        WordBook {
            switches: Self::switches_made(switches),
            words,
        }
    }

    // The word of an entry: bit m of it is what the entry says in mode m.
    fn word(&self, entry: Entry) -> u64
        requires { named self.now.switches (length (of_words self.now).guards) entry ≡ true }
        ensures { (m : ℕ) → m < modes (of_words self.now) → on_in m result ≡ entry_says (of_words self.now) entry m }
    {
        match entry {
            Entry::Switch(s) => SWITCH_WORDS[s],
            Entry::Not(g) => !self.words[g],
            Entry::Both(g, h) => self.words[g] & self.words[h],
            Entry::Either(g, h) => self.words[g] | self.words[h],
        }
    }
}

impl GuardBook for WordBook {
    ghost use Rattle.wordbook.specs.WordBook.{of_words};

    ghost meaning = { of_words };

    const MOST_SWITCHES: usize = 6;

    ghost MOST_SWITCHES = { 6 };

    ghost most_bound = { Prim.search rules };

    ghost sound = { λ x. words_sound x.switches x.words.items x.few x.room x.ones };

    fn switches(&self) -> usize {
        self.switches
    }

    fn guards(&self) -> usize {
        self.words.len()
    }

    fn enter(&mut self, entry: Entry) -> Result<usize, Fault> {
        let guard = self.admit(entry)?;
        let word = self.word(entry);
        self.words.push(word);
        Ok(guard)
    }

    fn ask(&self, guard: usize, mode: usize) -> Result<bool, Fault> {
        self.admit_question(guard, mode)?;
        Ok(has(self.words[guard], mode))
    }
}
