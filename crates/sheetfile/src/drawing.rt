// Draws the records of a file on a draft.
ghost use Rattle.sheetfile.specs.Drawn.{Draws, DrawsAll};

use crate::{FileFault, SheetFile, is_sound};
use faults::Fault;
use guards::GuardBook;
use sheet::Draft;

// Makes the drafting call that a record's letter names.
pub fn draw<B: GuardBook>(draft: &mut Draft<B>, record: usize, part: &[u8]) -> Result<(), FileFault>
    ensures { Draws draft.old «record» part.now result draft.new }
{
    if !is_sound(part) {
        return Err(FileFault::from(Fault::BadRecord { record }));
    }
    let (a, b) = (part[3] as usize, part[4] as usize);
    let answer = match part[2] as char {
        'S' => draft.enter_switch(a).map(|_| ()),
        'N' => draft.enter_not(a).map(|_| ()),
        'B' => draft.enter_both(a, b).map(|_| ()),
        'E' => draft.enter_either(a, b).map(|_| ()),
        'Q' => draft.guard_equation(a, b),
        'V' => draft.guard_variable(a, b),
        'O' => draft.place(a, b, part[5] as usize, part[6] as usize),
        'A' => draft.assume(a),
        _ => Err(Fault::BadRecord { record }),
    };
    answer.map_err(|fault| FileFault {
        fault,
        record: Some(record),
    })
}

// Draws every record that the reader has still to hand out, up to the first that is refused.
pub fn draw_all<B: GuardBook>(file: SheetFile, draft: &mut Draft<B>) -> Result<(), FileFault>
    ensures { DrawsAll file.entry draft.old result draft.new }
{
    for (number, part) in file {
        draw(draft, number, part)?;
    }
    Ok(())
}
