// The ends of every range, over each kind of book.
use crate::{Held, WordBook, alike, ask_all, enter_next, fill};
use faults::Fault;
use guards::GuardBook;
use rowbook::RowBook;
use std::process::Abort;
use std::test::Fail;

// 0, or the number of the refusal.
fn refusal<T: Drop>(answer: Result<T, Fault>) -> u8 {
    answer.err().map_or(0, |fault| fault.number())
}

fn ends_at_64<B: GuardBook + Drop>(rt: &impl Abort, mut book: B) {
    assert_eq!(rt; book.guards(), 1);
    assert_eq!(rt; refusal(fill(&mut book)), 0);
    assert_eq!(rt; book.guards(), 64);
    assert_eq!(rt; refusal(enter_next(&mut book)), 9);
    assert_eq!(rt; book.guards(), 64);
    assert_eq!(rt; refusal(book.enter_switch(book.switches())), 7);
    assert_eq!(rt; refusal(book.enter_not(64)), 8);
    assert_eq!(rt; refusal(book.enter_both(0, 64)), 8);
    assert_eq!(rt; refusal(book.enter_either(64, 0)), 8);
}

#[test]
fn guard_63_is_the_last(rt: HostRuntime) {
    ends_at_64(&rt, WordBook::new(2));
    ends_at_64(&rt, RowBook::new(2));
    ends_at_64(&rt, Held::new(RowBook::new(16), 15, false));
}

#[test]
fn questions_end_with_the_guards_and_modes(rt: HostRuntime) {
    let book = Held::new(WordBook::new(3), 2, true);
    assert_eq!(rt; refusal(book.ask(0, 7)), 0);
    assert_eq!(rt; refusal(book.ask(0, 8)), 14);
    assert_eq!(rt; refusal(book.ask(1, 7)), 8);
    assert_eq!(rt; refusal(book.ask(1, 8)), 8);
    assert_eq!(rt; refusal(RowBook::new(16).ask(0, 65535)), 0);
    assert_eq!(rt; refusal(RowBook::new(16).ask(0, 65536)), 14);
}

#[test]
fn makings_that_the_check_refuses(rt: HostRuntime) -> Result<(), Fail> {
    assert_eq!(rt;
        (WordBook::check_switches(6), WordBook::check_switches(7)),
        (0, 6)
    );
    assert_eq!(rt;
        (RowBook::check_switches(16), RowBook::check_switches(17)),
        (0, 6)
    );
    assert_eq!(rt;
        (WordBook::new(7).switches(), WordBook::new(7).guards()),
        (0, 1)
    );
    assert_eq!(rt;
        (RowBook::new(17).switches(), RowBook::new(17).guards()),
        (0, 1)
    );
    let below = WordBook::new(2);
    assert_eq!(rt;
        (Held::check_switch(&below, 1), Held::check_switch(&below, 2)),
        (0, 7)
    );
    let mut book = Held::new(below, 2, true);
    let guard = book.enter_switch(1)?;
    assert_eq!(rt; (book.ask(guard, 0)?, book.ask(guard, 2)?), (false, true));
    Ok(())
}

#[test]
fn a_switch_held_below_stays(rt: HostRuntime) -> Result<(), Fail> {
    let below = Held::new(WordBook::new(2), 1, true);
    let mut book = Held::new(Held::new(below, 1, false), 0, false);
    let (zero, one) = (book.enter_switch(0)?, book.enter_switch(1)?);
    for mode in 0..4 {
        assert_eq!(rt;
            (book.ask(zero, mode)?, book.ask(one, mode)?),
            (false, true)
        );
    }
    Ok(())
}

#[test]
fn word_and_row_books_answer_alike(rt: HostRuntime) -> Result<(), Fail> {
    let (mut words, mut rows) = (WordBook::new(6), RowBook::new(6));
    assert_eq!(rt;
        (refusal(fill(&mut words)), refusal(fill(&mut rows))),
        (0, 0)
    );
    let (one, other) = (
        ask_all(rt.alloc(), &words, 0)?,
        ask_all(rt.alloc(), &rows, 0)?,
    );
    assert_eq!(rt; (one.len(), other.len()), (4096, 4096));
    assert_eq!(rt; alike(&one, &other), 4096);
    Ok(())
}
