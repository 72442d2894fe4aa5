//! Lists of chairs.
ghost use Rattle.std.specs.Prelude.{◌≡◌, ◌++◌, [], ◌∷◌, OnOk};
ghost use Rattle.std.specs.Option.{option_to_list};

use flow_book::GraphMachine;
use flow_item::NoMemory;
use flow_line::{Chair, Chairs, Naming};

/// Takes out the last chair, where there is one.
pub fn take_last<B: Naming>(chairs: &mut Chairs<GraphMachine, B>) -> Option<Chair<GraphMachine, B>>
    ensures { chairs.old.items ≡ chairs.new.items ++ option_to_list result }
{
    match chairs.pop() {
        Some(chair) => Some(chair),
        None => None,
    }
}

/// Adds a chair behind the others.
pub fn add_chair<B: Naming>(
    chairs: &mut Chairs<GraphMachine, B>,
    chair: Chair<GraphMachine, B>,
) -> Result<(), NoMemory>
    ensures { OnOk result (chairs.new.items ≡ chairs.old.items ++ chair ∷ []) }
{
    match chairs.push(chair) {
        Ok(()) => Ok(()),
        Err(_) => Err(NoMemory),
    }
}
