// The ends of every range, in sheets and in files.
use crate::{issued, show};
use faults::Fault;
use guards::GuardBook;
use rowbook::RowBook;
use sheet::{Draft, check_counts};
use sheetfile::{FileFault, SheetFile, draw};
use std::test::Fail;
use wordbook::WordBook;

// 0, or the number of the refusal.
fn refusal<T: Drop>(answer: Result<T, Fault>) -> u8 {
    answer.err().map_or(0, |fault| fault.number())
}

// The number of the refusal that a file meets, and its record.
fn met(bytes: &[u8]) -> (u8, usize) {
    match SheetFile::open(bytes) {
        Ok(file) => {
            let book = RowBook::new(file.switches());
            match issued(file, book) {
                Ok(_) => (0, 0),
                Err(fault) => numbers(fault),
            }
        }
        Err(fault) => numbers(FileFault::from(fault)),
    }
}

fn numbers(fault: FileFault) -> (u8, usize) {
    (fault.fault.number(), fault.record.unwrap_or(0))
}

// One switch, two equations, two variables.
const HEADER: [u8; 8] = [0, 1, 1, 2, 2, 0, 0, 0];

const LAST: [u8; 8] = [0, 0, b'A', 0, 0, 0, 0, 0];

#[test]
fn placings_end_with_orders_and_places(rt: HostRuntime) {
    let mut draft = Draft::new(WordBook::new(1), 64, 64);
    assert_eq!(rt; refusal(draft.place(63, 63, 15, 0)), 0);
    assert_eq!(rt; refusal(draft.place(63, 63, 16, 0)), 11);
    assert_eq!(rt; refusal(draft.place(64, 63, 16, 0)), 10);
    assert_eq!(rt; refusal(draft.place(63, 64, 16, 0)), 10);
    assert_eq!(rt; refusal(draft.place(64, 64, 16, 1)), 8);
    assert_eq!(rt; refusal(draft.guard_equation(63, 0)), 0);
    assert_eq!(rt; refusal(draft.guard_equation(64, 0)), 10);
    assert_eq!(rt; refusal(draft.guard_variable(63, 1)), 8);
    assert_eq!(rt; refusal(draft.guard_variable(64, 0)), 10);
    assert_eq!(rt; refusal(draft.assume(1)), 8);
    assert_eq!(rt; refusal(draft.strike(63, 63, 1)), 8);
    assert_eq!(rt; refusal(draft.strike(64, 0, 0)), 10);
    assert_eq!(rt; refusal(draft.strike(63, 62, 0)), 13);
}

#[test]
fn the_512th_occurrence_is_the_last(rt: HostRuntime) -> Result<(), Fail> {
    let mut draft = Draft::new(WordBook::new(0), 2, 1);
    for n in 0..512 {
        assert_eq!(rt; refusal(draft.place(n % 2, 0, n % 16, 0)), 0);
    }
    assert_eq!(rt; refusal(draft.place(0, 0, 0, 0)), 12);
    assert_eq!(rt; refusal(draft.place(0, 0, 16, 0)), 11);
    assert_eq!(rt; refusal(draft.strike(0, 0, 0)), 0);
    assert_eq!(rt; refusal(draft.strike(0, 0, 0)), 13);
    assert_eq!(rt; refusal(draft.place(0, 0, 0, 0)), 0);
    let table = draft.issue().signature(0)?;
    assert_eq!(rt; (table.place(0, 0), table.place(1, 0)), (Some(0), Some(15)));
    Ok(())
}

#[test]
fn sheets_of_more_than_64_are_made_empty(rt: HostRuntime) -> Result<(), Fail> {
    assert_eq!(rt; (check_counts(64, 64), check_counts(0, 0)), (0, 0));
    assert_eq!(rt; (check_counts(65, 64), check_counts(64, 65)), (6, 6));
    let mut draft = Draft::new(WordBook::new(1), 64, 65);
    assert_eq!(rt; refusal(draft.guard_equation(0, 0)), 10);
    assert_eq!(rt; refusal(draft.guard_variable(0, 0)), 10);
    let table = draft.issue().signature(0)?;
    assert_eq!(rt; (table.equations, table.variables), (0, 0));
    Ok(())
}

#[test]
fn the_largest_order_counts_where_all_is_active(rt: HostRuntime) -> Result<(), Fail> {
    let mut draft = Draft::new(WordBook::new(1), 2, 2);
    let on = draft.enter_switch(0)?;
    let off = draft.enter_not(on)?;
    draft.guard_variable(1, off)?;
    draft.place(0, 0, 3, 0)?;
    draft.place(0, 0, 1, 0)?;
    draft.place(0, 1, 2, 0)?;
    draft.place(1, 0, 5, on)?;
    let sheet = draft.issue();
    let (zero, one) = (sheet.signature(0)?, sheet.signature(1)?);
    assert_eq!(rt; (zero.variables, one.variables), (3, 1));
    assert_eq!(rt; (zero.place(0, 0), one.place(0, 0)), (Some(3), Some(3)));
    assert_eq!(rt; (zero.place(0, 1), one.place(0, 1)), (Some(2), None));
    assert_eq!(rt; (zero.place(1, 0), one.place(1, 0)), (None, Some(5)));
    assert_eq!(rt; refusal(sheet.signature(2)), 14);
    let mut draft = sheet.reopen();
    draft.assume(on)?;
    let sheet = draft.issue();
    assert_eq!(rt; refusal(sheet.signature(0)), 15);
    assert_eq!(rt; refusal(sheet.signature(1)), 0);
    Ok(())
}

#[test]
fn files_end_at_8192_bytes(rt: HostRuntime) {
    let mut bytes = [0; 8200];
    assert_eq!(rt; met(&bytes[0..0]), (1, 0));
    assert_eq!(rt; met(&bytes[0..7]), (1, 0));
    assert_eq!(rt; met(&bytes[0..8]), (0, 0));
    assert_eq!(rt; met(&bytes[0..9]), (1, 0));
    assert_eq!(rt; met(&bytes[0..8192]), (0, 0));
    assert_eq!(rt; met(&bytes[0..8200]), (1, 0));
    bytes[0] = 3;
    bytes[1] = 255;
    assert_eq!(rt; met(&bytes[0..8192]), (4, 1023));
    bytes[8186] = b'A';
    assert_eq!(rt; met(&bytes[0..8192]), (0, 0));
    assert_eq!(rt; met(&bytes[0..8184]), (3, 0));
    bytes[0] = 4;
    bytes[1] = 0;
    assert_eq!(rt; met(&bytes[0..8192]), (3, 0));
}

#[test]
fn headers_end_with_their_counts(rt: HostRuntime) {
    let rows = [
        ([0, 0, 16, 64, 64, 0, 0, 0], 0),
        ([0, 0, 17, 64, 64, 0, 0, 0], 2),
        ([0, 0, 16, 65, 64, 0, 0, 0], 2),
        ([0, 0, 16, 64, 65, 0, 0, 0], 2),
        ([0, 0, 16, 64, 64, 1, 0, 0], 2),
        ([0, 0, 16, 64, 64, 0, 1, 0], 2),
        ([0, 0, 16, 64, 64, 0, 0, 1], 2),
        ([0, 1, 17, 0, 0, 0, 0, 0], 2),
        ([0, 1, 16, 0, 0, 0, 0, 0], 3),
    ];
    for (header, number) in rows {
        assert_eq!(rt; met(&header), (number, 0));
    }
}

#[test]
fn chains_of_two_records(rt: HostRuntime) {
    let rows = [
        ([0, 2, b'S', 0, 0, 0, 0, 0], LAST, (0, 0)),
        ([0, 3, b'S', 0, 0, 0, 0, 0], LAST, (3, 1)),
        ([2, 0, b'S', 0, 0, 0, 0, 0], LAST, (3, 1)),
        ([0, 3, b'X', 0, 0, 0, 0, 0], LAST, (3, 1)),
        ([0, 2, b'X', 0, 0, 0, 0, 0], LAST, (4, 1)),
        ([0, 2, b's', 0, 0, 0, 0, 0], LAST, (4, 1)),
        ([0, 1, b'S', 0, 0, 0, 0, 0], LAST, (5, 0)),
        (
            [0, 2, b'S', 0, 0, 0, 0, 0],
            [0, 1, b'A', 0, 0, 0, 0, 0],
            (5, 0),
        ),
        (
            [0, 0, b'S', 0, 0, 0, 0, 0],
            [9, 9, b'X', 9, 9, 9, 9, 9],
            (0, 0),
        ),
        ([0, 2, b'S', 1, 0, 0, 0, 0], LAST, (7, 1)),
        ([0, 2, b'N', 1, 0, 0, 0, 0], LAST, (8, 1)),
        ([0, 2, b'Q', 2, 0, 0, 0, 0], LAST, (10, 1)),
        ([0, 2, b'O', 1, 1, 15, 0, 0], LAST, (0, 0)),
        ([0, 2, b'O', 1, 1, 16, 0, 0], LAST, (11, 1)),
        (
            [0, 2, b'S', 0, 0, 0, 0, 0],
            [0, 0, b'A', 2, 0, 0, 0, 0],
            (8, 2),
        ),
    ];
    for (one, two, expected) in rows {
        assert_eq!(rt; met([HEADER, one, two].as_flattened()), expected);
    }
}

#[test]
fn unused_bytes_are_zero_in_each_letter(rt: HostRuntime) {
    let rows = [
        (b'S', 4),
        (b'N', 4),
        (b'A', 4),
        (b'B', 5),
        (b'E', 5),
        (b'Q', 5),
        (b'V', 5),
        (b'O', 7),
    ];
    for (letter, first_unused) in rows {
        let plain = [0, 2, letter, 0, 0, 0, 0, 0];
        assert_eq!(rt; met([HEADER, plain, LAST].as_flattened()), (0, 0));
        for at in 4..8 {
            let mut one = plain;
            one[at] = 1;
            let number = met([HEADER, one, LAST].as_flattened()).0;
            assert_eq!(rt; number == 4, at >= first_unused);
        }
    }
}

#[test]
fn records_before_a_refused_one_stand(rt: HostRuntime) -> Result<(), Fail> {
    let mut draft = Draft::new(RowBook::new(1), 1, 1);
    let refused = [0, 0, b'O', 0, 0, 16, 0, 0];
    draw(&mut draft, 1, &[0, 2, b'O', 0, 0, 3, 0, 0])?;
    assert_eq!(rt;
        draw(&mut draft, 7, &refused).err().map(numbers),
        Some((11, 7))
    );
    assert_eq!(rt;
        draw(&mut draft, 8, &refused[0..7]).err().map(numbers),
        Some((4, 8))
    );
    assert_eq!(rt; draft.issue().signature(0)?.place(0, 0), Some(3));
    Ok(())
}

#[test]
fn a_refused_file_prints_its_refusal_alone(rt: HostRuntime) -> Result<(), Fail> {
    let one = [0, 2, b'O', 1, 1, 15, 0, 0];
    let mut out = Vec::new(rt.alloc());
    show(
        &mut out,
        [HEADER, one, [0, 0, b'V', 2, 0, 0, 0, 0]].as_flattened(),
    )?;
    assert_eq!(rt; out.as_slice(), b"refused 10 record 2\n".as_slice());
    Ok(())
}
