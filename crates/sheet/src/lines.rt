// What a sheet holds beside its book.
ghost use Rattle.std.specs.Prelude.{◌≡◌, ◌≤◌, [], length, replicate, slice_set, nat_lt};
ghost use Rattle.faults.specs.declared.Fault.TheVariants.{NoSuchPlace};
ghost use Rattle.faults.specs.Refusals.{told};
ghost use Rattle.guards.specs.Calls.{provided};

use arrayvec::ArrayVec;
use faults::Fault;
use reading::Occurrence;

#[derive(Drop)]
pub struct Lines {
    // the guard of each equation and of each variable
    pub(crate) equations: ArrayVec<u8, 64>,
    pub(crate) variables: ArrayVec<u8, 64>,
    pub(crate) occurrences: ArrayVec<Occurrence, 512>,
    pub(crate) assumed: u8,
    ghost few_equations: { length equations.items ≤ 64 },
    ghost few_variables: { length variables.items ≤ 64 },
    ghost few_occurrences: { length occurrences.items ≤ 512 },
}

impl Lines {
    // Every equation and variable under guard 0, no occurrence, guard 0 assumed.
    pub(crate) fn new(equations: usize, variables: usize) -> Self
        requires few_equations { equations ≤ 64 }
        requires few_variables { variables ≤ 64 }
        ensures equations { result.equations.items ≡ replicate equations 0 }
        ensures variables { result.variables.items ≡ replicate variables 0 }
        ensures occurrences { result.occurrences.items ≡ [] }
        ensures assumed { result.assumed ≡ 0 }
    {
        Lines {
            equations: under_guard_0(equations),
            variables: under_guard_0(variables),
            occurrences: ArrayVec::new(),
            assumed: 0,
        }
    }
}

fn under_guard_0(count: usize) -> ArrayVec<u8, 64>
    requires { count ≤ 64 }
    ensures { result.items ≡ replicate count 0 }
{
    let mut guards = ArrayVec::from([0; 64]);
    guards.truncate(count);
    guards
}

// Puts an equation or a variable under a guard.
pub(crate) fn put_under(guards: &mut ArrayVec<u8, 64>, at: usize, guard: u8) -> Result<(), Fault>
    ensures given { told result ≡ provided (nat_lt at (length guards.old.items)) NoSuchPlace (Ok tt) }
    ensures left { guards.new.items ≡ slice_set guards.old.items at guard }
{
    *guards.get_mut(at).ok_or(Fault::NoSuchPlace)? = guard;
    Ok(())
}
