// An occurrence: a variable stands in an equation with an order, where a guard says yes.
#[derive(Clone, Copy, Debug, Default, PartialEq, Eq)]
pub struct Occurrence {
    pub equation: u8,
    pub variable: u8,
    pub order: u8,
    pub guard: u8,
}
