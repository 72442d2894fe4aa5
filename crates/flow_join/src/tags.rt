ghost use Rattle.std.specs.Prelude.{◌≡◌, ℕ, ◌<◌, true, false, nat_eq, is_some, [], ◌∷◌, ◌++◌, if◌then◌else◌, OnOk};
ghost use Rattle.indexmap.specs.IndexMap.{get};
ghost use Rattle.flow_join.specs.Tags.{places_at, HasTagRoom};

use flow_item::NoMemory;
use indexmap::IndexMap;
use std::alloc::Global;
use std::collections::VecDeque;

/// The places of the items of one tag, of which there is one at least: a tag with one item takes no memory of its own.
#[derive(Drop)]
pub(crate) struct Places {
    pub(crate) first: u64,
    pub(crate) later: VecDeque<u64>,
}

/// Makes room for one more place of a tag.
pub(crate) fn reserve_place(map: &mut IndexMap<u64, Places>, tag: u64) -> Result<(), NoMemory>
    ensures ok { OnOk result (HasTagRoom map.new tag) }
    ensures same { (t : ℕ) → places_at map.new t ≡ places_at map.old t }
{
    match map.get_mut(&tag) {
        Some(places) => match places.later.reserve(1) {
            Ok(()) => Ok(()),
            Err(_) => Err(NoMemory),
        },
        None => match map.reserve(1) {
            Ok(()) => Ok(()),
            Err(_) => Err(NoMemory),
        },
    }
}

/// Adds a place of a tag, which is the last of it.
pub(crate) fn push_place(map: &mut IndexMap<u64, Places>, tag: u64, place: u64)
    requires { HasTagRoom map.old tag }
    ensures own { places_at map.new tag ≡ places_at map.old tag ++ place ∷ [] }
    ensures others { (t : ℕ) → nat_eq tag t ≡ false → places_at map.new t ≡ places_at map.old t }
{
    match map.get_mut(&tag) {
        Some(places) => places.later.push_back_reserved(place),
        None => {
            let later = VecDeque::new(*map.allocator());
            let places = Places {
                first: place,
                later,
            };
            let _ = map.insert(tag, places);
        }
    }
}

/// Takes out the first place of a tag that has one.
pub(crate) fn pop_place(map: &mut IndexMap<u64, Places>, tag: u64) -> u64
    requires { is_some (get nat_eq map.old tag) ≡ true }
    ensures own { places_at map.old tag ≡ result ∷ places_at map.new tag }
    ensures others { (t : ℕ) → nat_eq tag t ≡ false → places_at map.new t ≡ places_at map.old t }
{
    let places = map.get_mut(&tag).unwrap();
    let place = places.first;
    match places.later.pop_front() {
        Some(next) => places.first = next,
        None => {
            map.swap_remove(&tag);
        }
    }
    place
}
