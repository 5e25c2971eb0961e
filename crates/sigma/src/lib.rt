// The signature of a mode as a table: the active equations and variables as words, which places are filled, and the orders there.
#![tactic(auto)]

ghost use Rattle.std.specs.Prelude.{◌≡◌, ℕ, ◌&&◌, length, All, Some, None, slice_index};
ghost use Rattle.sets.specs.Word.{member};
ghost use Rattle.sigma.specs.Signature.{raised};

use sets::{has, with};

#[derive(Drop)]
pub struct Table {
    pub equations: u64,
    pub variables: u64,
    // the variables at the filled places of an equation
    pub across: [u64; 64],
    // the equations at the filled places of a variable
    pub down: [u64; 64],
    // by equation and variable; of no account at an empty place
    pub orders: [[u8; 64]; 64],
    ghost whole_across: { length across ≡ 64 },
    ghost whole_down: { length down ≡ 64 },
    ghost whole_orders: { length orders ≡ 64 },
    ghost whole_rows: { All (λ row. length row ≡ 64) orders },
    ghost agree: { (i j : ℕ) → member (slice_index across i) j ≡ member (slice_index down j) i },
    ghost within: { (i j : ℕ) → (member (slice_index across i) j && (member equations i && member variables j)) ≡ member (slice_index across i) j },
}

// The larger of the order that stands, if one does, and a new one.
fn larger(standing: Option<u8>, order: u8) -> u8
    ensures { Some result ≡ raised standing order }
{
    match standing {
        Some(old) => old.max(order),
        None => order,
    }
}

impl Table {
    ghost use Rattle.sigma.specs.Tables.{IsTableOf, place_in, counted};

    // No place is filled.
    pub fn new(equations: u64, variables: u64) -> Self
        ensures { IsTableOf equations variables (λ _ _. None) result }
    {
        Table {
            equations,
            variables,
            across: [0; 64],
            down: [0; 64],
            orders: [[0; 64]; 64],
        }
    }

    // One occurrence more: at a place of an active equation and an active variable the larger order stands.
    #[tactic(auto, using(crate::proofs::Places::member_bound))]
    pub fn count(&mut self, equation: usize, variable: usize, order: u8)
        ensures { IsTableOf self.old.equations self.old.variables (counted self.old equation variable order) self.new }
    {
        if has(self.equations, equation) && has(self.variables, variable) {
            let standing = self.place(equation, variable);
            self.orders[equation][variable] = larger(standing, order);
            self.across[equation] = with(self.across[equation], variable);
            self.down[variable] = with(self.down[variable], equation);
        }
    }

    // The order at a place, none where it is empty.
    pub fn place(&self, equation: usize, variable: usize) -> Option<u8>
        ensures { result ≡ place_in self.now equation variable }
    {
        if equation >= 64 {
            return None;
        }
        if !has(self.across[equation], variable) {
            return None;
        }
        Some(self.orders[equation][variable])
    }
}
