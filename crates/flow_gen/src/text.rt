// The text of the generated document.
ghost use Rattle.std.specs.Prelude.{◌≡◌, ◌++◌, ℕ, List, true, Some, OnOk, IfOk, decimal, string_bytes};
ghost use Rattle.serde_json.specs.Written.{comma_if};
ghost use Rattle.flow_gen.specs.Generated.{generated_text, has_bodies};
ghost use Rattle.flow_gen.specs.Texts.{if_own, put_text, puts_text, script_text, scripts_text, head_text, tail_text};

use flow_item::NoMemory;
use itoa::Buffer;
use std::alloc::Global;

/// All of the text before the first caller's steps.
const HEAD: &str =
    "{\"version\":1,\"nodes\":[{\"name\":\"src\",\"kind\":\"queue\"},{\"name\":\"pre\",\"kind\":\"function\",\"limit\":4,\"body\":\"add\",\"arg\":1},{\"name\":\"left\",\"kind\":\"function\",\"body\":\"mul\",\"arg\":3},{\"name\":\"right\",\"kind\":\"function\",\"limit\":1,\"body\":\"neg\"},{\"name\":\"both\",\"kind\":\"join\",\"policy\":\"key\",\"ports\":2},{\"name\":\"out\",\"kind\":\"sequencer\"}],\"edges\":[{\"from\":\"src\",\"to\":\"pre\"},{\"from\":\"pre\",\"to\":\"left\"},{\"from\":\"pre\",\"to\":\"right\"},{\"from\":\"left\",\"to\":\"both\"},{\"from\":\"right\",\"to\":\"both\",\"port\":1},{\"from\":\"both\",\"to\":\"out\"}],\"callers\":[[";

// Adds a number.
fn add_number(out: &mut String, number: u32) -> Result<(), NoMemory>
    ensures { OnOk result (string_bytes out.new ≡ string_bytes out.old ++ decimal number) }
{
    let mut digits = Buffer::new();
    out.push_str(digits.format(number))?;
    Ok(())
}

// Adds the step that puts a number.
fn add_put(out: &mut String, number: u32) -> Result<(), NoMemory>
    ensures { OnOk result (string_bytes out.new ≡ string_bytes out.old ++ put_text number) }
{
    if number == 0 {
        out.push_str("{\"put\":\"src\",\"val\":0}")?;
        return Ok(());
    }
    out.push_str("{\"put\":\"src\",\"tag\":")?;
    add_number(out, number)?;
    out.push_str(",\"val\":")?;
    add_number(out, number)?;
    out.push_str("}")?;
    Ok(())
}

// Adds a comma where a step stands before.
fn add_comma(out: &mut String, later: bool) -> Result<(), NoMemory>
    ensures { OnOk result (string_bytes out.new ≡ string_bytes out.old ++ comma_if later) }
{
    if later {
        out.push_str(",")?;
    }
    Ok(())
}

// Adds the step of a number that is `caller` more than a multiple of 4, and tells whether a step stands before the next.
fn add_own(out: &mut String, later: bool, number: u32, caller: u32) -> Result<bool, NoMemory>
    ensures { IfOk result (λ next. (ks : List ℕ) → string_bytes out.new ++ puts_text next ks ≡ string_bytes out.old ++ puts_text later (if_own caller number ++ ks)) }
{
    if number % 4 != caller {
        return Ok(later);
    }
    add_comma(out, later)?;
    add_put(out, number)?;
    Ok(true)
}

// Adds the steps of a caller, with the bracket that ends them.
fn add_script(out: &mut String, count: u32, caller: u32) -> Result<(), NoMemory>
    ensures { OnOk result (string_bytes out.new ≡ string_bytes out.old ++ script_text count caller) }
{
    let mut later = false;
    for number in 0..count {
        later = add_own(out, later, number, caller)?;
    }
    out.push_str("]")?;
    Ok(())
}

// Adds the steps of all callers.
fn add_scripts(out: &mut String, count: u32) -> Result<(), NoMemory>
    ensures { OnOk result (string_bytes out.new ≡ string_bytes out.old ++ scripts_text count) }
{
    add_script(out, count, 0)?;
    out.push_str(",[")?;
    add_script(out, count, 1)?;
    out.push_str(",[")?;
    add_script(out, count, 2)?;
    out.push_str(",[")?;
    add_script(out, count, 3)?;
    Ok(())
}

// The whole text.
fn whole_text(alloc: Global, count: u32) -> Result<String, NoMemory>
    ensures { IfOk result (λ text. string_bytes text ≡ head_text ++ (scripts_text count ++ tail_text)) }
{
    let mut out = String::from_str(alloc, HEAD)?;
    add_scripts(&mut out, count)?;
    out.push_str("],\"sinks\":[\"out\"]}\n")?;
    Ok(out)
}

/// The text of the document of a number, and a newline, with the bodies of any shelf that has them. Four walks over the
/// numbers.
pub fn generated_text(alloc: Global, count: u32) -> Result<String, NoMemory>
    ensures { IfOk result (λ text. (shelf : List (List ℕ)) → has_bodies shelf ≡ true → generated_text shelf count ≡ Some (string_bytes text)) }
{
    match whole_text(alloc, count) {
        Ok(text) => Ok(text),
        Err(fault) => Err(fault),
    }
}
