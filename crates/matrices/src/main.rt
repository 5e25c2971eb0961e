// Reads a sheet file from standard input and prints the signature of each allowed mode as a matrix.
#![tactic(auto)]

use guards::GuardBook;
use rowbook::RowBook;
use sets::has;
use sheet::{Draft, Issued};
use sheetfile::{FileFault, SheetFile, draw_all};
use sigma::Table;
use std::io;
use std::io::{BufWriter, Read, Write};
use wordbook::WordBook;

#[cfg(test)]
mod tests;

// A new sheet over a book, with every record of the file drawn.
fn issued<B: GuardBook + Drop>(file: SheetFile, book: B) -> Result<Issued<B>, FileFault> {
    let mut draft = Draft::new(book, file.equations(), file.variables());
    draw_all(file, &mut draft)?;
    Ok(draft.issue())
}

// The name of a column or a row, five characters wide.
fn print_name<W: Write>(out: &mut W, letter: char, n: usize) -> io::Result<()> {
    let width = if n < 10 { 4 } else { 3 };
    write!(out, "{letter:>width$}{n}")
}

fn print_header<W: Write>(out: &mut W, variables: u64) -> io::Result<()> {
    write!(out, "     ")?;
    for j in (0..64).filter(|&j| has(variables, j)) {
        print_name(out, 'v', j)?;
    }
    writeln!(out)
}

// The orders of an equation, a dot where a place is empty.
fn print_row<W: Write>(out: &mut W, table: &Table, equation: usize) -> io::Result<()> {
    print_name(out, 'e', equation)?;
    for j in (0..64).filter(|&j| has(table.variables, j)) {
        match table.place(equation, j) {
            Some(order) => write!(out, "{order:>5}")?,
            None => write!(out, "    .")?,
        }
    }
    writeln!(out)
}

// A row for each active equation and a column for each active variable.
fn print_matrix<W: Write>(out: &mut W, table: &Table) -> io::Result<()> {
    if table.variables != 0 {
        print_header(out, table.variables)?;
    }
    for i in (0..64).filter(|&i| has(table.equations, i)) {
        print_row(out, table, i)?;
    }
    Ok(())
}

fn print_modes<W: Write, B: GuardBook>(out: &mut W, sheet: &Issued<B>) -> io::Result<()> {
    let mut allowed = 0usize;
    for mode in 0..sheet.modes() {
        if let Ok(table) = sheet.signature(mode) {
            writeln!(
                out,
                "mode {mode}: equations {}, variables {}",
                table.equations.count_ones(),
                table.variables.count_ones()
            )?;
            print_matrix(out, &table)?;
            allowed += 1;
        }
    }
    writeln!(out, "{allowed} of {} modes allowed", sheet.modes())
}

// What a file drawn over a book shows: its modes, or the refusal alone.
fn print_drawn<W: Write, B: GuardBook + Drop>(
    out: &mut W,
    drawn: Result<Issued<B>, FileFault>,
) -> io::Result<()> {
    match drawn {
        Ok(sheet) => print_modes(out, &sheet),
        Err(fault) => writeln!(out, "{fault}"),
    }
}

// Draws the file over a word book if that takes so many switches, and over a row book otherwise.
fn show<W: Write>(out: &mut W, bytes: &[u8]) -> io::Result<()> {
    let file = match SheetFile::open(bytes) {
        Ok(file) => file,
        Err(fault) => return writeln!(out, "{}", FileFault::from(fault)),
    };
    let switches = file.switches();
    if WordBook::check_switches(switches) == 0 {
        print_drawn(out, issued(file, WordBook::new(switches)))
    } else {
        print_drawn(out, issued(file, RowBook::new(switches)))
    }
}

fn main(rt: HostRuntime) -> anyhow::Result<()> {
    let mut bytes = Vec::new(rt.alloc());
    rt.stdin().read_to_end(&mut bytes)?;
    let mut out = BufWriter::new(rt.alloc(), rt.stdout())?;
    show(&mut out, &bytes)?;
    out.flush()?;
    Ok(())
}
