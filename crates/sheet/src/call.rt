// The calls of a sheet, as types.
use guards::Entry;

// what a drafting call asks for
#[derive(Clone, Copy, Debug, PartialEq, Eq)]
pub enum Change {
    Enter(Entry),
    Equation {
        equation: usize,
        guard: usize,
    },
    Variable {
        variable: usize,
        guard: usize,
    },
    Place {
        equation: usize,
        variable: usize,
        order: usize,
        guard: usize,
    },
    Strike {
        equation: usize,
        variable: usize,
        guard: usize,
    },
    Assume {
        guard: usize,
    },
}

#[derive(Clone, Copy, Debug, PartialEq, Eq)]
pub enum Call {
    Draft(Change),
    Issue,
    Reopen,
    Read { mode: usize },
    Sweep,
}
