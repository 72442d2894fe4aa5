//! Journals by their letters.
use flow_item::Event;

// The letter of an event.
fn letter(event: &Event) -> u8 {
    match event {
        Event::Put { .. } => b'p',
        Event::Give { .. } => b'g',
        Event::Start { .. } => b's',
        Event::End { .. } => b'e',
        Event::Shut { .. } => b'c',
        Event::Idle { .. } => b'i',
        Event::Leave { .. } => b'l',
        _ => b'?',
    }
}

// Whether the journal has these events: puts, gives, starts, ends, closed casts, idles and leaves.
pub fn reads(journal: &[Event], letters: &[u8]) -> bool {
    let mut at = 0_usize;
    for event in journal {
        match letters.get(at) {
            Some(next) => {
                if letter(event) != *next {
                    return false;
                }
            }
            None => return false,
        }
        at = at.saturating_add(1);
    }
    at == letters.len()
}
