//! How many items were born in a run.
ghost use Rattle.std.specs.Prelude.{◌<◌, ◌≤◌, ◌^◌};
ghost use Rattle.flow_item.specs.Events.{births};
ghost use Rattle.flow_laws.specs.Moments.{IsWithinLimits};

use flow_item::Journal;

// That there are few, since there were fewer than the limit before the last event that bears some. Takes no more steps
// than there are events after that one.
pub(crate) fn tell_few(journal: &Journal, items: u64, events: u64)
    requires within { IsWithinLimits items events journal.now }
    requires small { items < 2 ^ 62 }
    ensures { births journal.now ≤ 2 ^ 63 }
{
    let _ = (items, events);
    let mut at = journal.len();
    'back: while at > 0 {
        at -= 1;
        match journal.get(at) {
            Some(event) => {
                if event.births() > 0 {
                    return;
                }
            }
            None => unreachable!(),
        }
    }
}
