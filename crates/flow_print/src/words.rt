// Words with a space between.
ghost use Rattle.std.specs.Prelude.{◌≡◌, [], ◌∷◌, ◌++◌, decimal, string_bytes, IfOk, OnOk};
ghost use Rattle.flow_report.specs.Words.{line, numbers};

use flow_item::NoMemory;
use itoa::Buffer;
use std::alloc::Global;

/// Adds a space and a word.
pub(crate) fn add_word(text: &mut String, word: &str) -> Result<(), NoMemory>
    ensures { OnOk result (string_bytes text.new ≡ string_bytes text.old ++ 32 ∷ word.now) }
{
    text.push_str(" ")?;
    text.push_str(word)?;
    Ok(())
}

fn add_number(text: &mut String, number: u64) -> Result<(), NoMemory>
    ensures { OnOk result (string_bytes text.new ≡ string_bytes text.old ++ 32 ∷ decimal number) }
{
    let mut digits = Buffer::new();
    add_word(text, digits.format(number))
}

/// A word, and numbers after it.
pub(crate) fn numbers_text(alloc: Global, word: &str, counts: &[u64]) -> Result<String, NoMemory>
    ensures { IfOk result (λ s. string_bytes s ≡ line (word.now ∷ numbers counts.now)) }
{
    let mut text = String::from_str(alloc, word)?;
    for number in counts {
        add_number(&mut text, *number)?;
    }
    Ok(text)
}

/// A word, numbers and a last word.
pub(crate) fn text_after(
    alloc: Global,
    word: &str,
    counts: &[u64],
    last: &str,
) -> Result<String, NoMemory>
    ensures { IfOk result (λ s. string_bytes s ≡ line (word.now ∷ (numbers counts.now ++ last.now ∷ []))) }
{
    let mut text = numbers_text(alloc, word, counts)?;
    add_word(&mut text, last)?;
    Ok(text)
}
