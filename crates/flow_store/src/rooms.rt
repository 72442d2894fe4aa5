ghost use Rattle.std.specs.Prelude.{◌≡◌};
ghost use Rattle.flow_machine.specs.Offers.{room_under};
ghost use Rattle.flow_store.specs.Stores.{room_told};

use flow_item::{Cause, Land};

/// How a buffer or queue with so many items receives one more.
pub(crate) fn room_under(len: usize, capacity: Option<u32>) -> Result<Land, Cause>
    ensures { room_told result ≡ room_under len capacity }
{
    match capacity {
        Some(most) if len >= most as usize => Err(Cause::Full(most)),
        _ => Ok(Land::Kept),
    }
}
