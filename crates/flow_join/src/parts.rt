ghost use Rattle.std.specs.Prelude.{◌≡◌, ◌-◌, ◌≤◌, [], ◌∷◌, ◌++◌};
ghost use Rattle.flow_item.specs.Rooms.{roomy};

use flow_item::{Id, Item, Roomy, Val};

/// Puts a part last in the lists of ids and of values.
pub(crate) fn push_part(part: Item, ids: &mut Roomy<Id>, vals: &mut Roomy<Val>)
    requires ids { 1 ≤ ids.old.spare }
    requires vals { 1 ≤ vals.old.spare }
    ensures ids { ids.new ≡ roomy (ids.old.items ++ part.id ∷ []) (ids.old.spare - 1) }
    ensures vals { vals.new ≡ roomy (vals.old.items ++ part.val ∷ []) (vals.old.spare - 1) }
{
    let Item { id, tag: _, val } = part;
    ids.push_reserved(id);
    vals.push_reserved(val);
}
