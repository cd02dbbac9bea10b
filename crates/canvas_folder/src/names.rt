//! The names of what is in a folder.
ghost use Rattle.std.specs.Prelude.{◌≡◌, ◌<◌, ◌^◌, ◌↔◌, ℕ, IfSome, IsTrue, Some, decimal};

use itoa::Buffer;

/// The document that a generation begins with.
pub const OPENING: &str = "opening.json";

/// An opening that has not got its name yet.
pub const TEMPORARY: &str = "opening.json.new";

/// The edits of a generation.
pub const JOURNAL: &str = "journal.jsonl";

/// The same in a new file that has not got its name yet.
pub const NEW_JOURNAL: &str = "journal.jsonl.new";

/// The file by whose lock one process alone serves the folder.
pub const LOCK: &str = "lock";

/// The file that names the store that keeps the document.
pub const STORE: &str = "store";

/// The generation that a name stands for: a decimal number from 1 on, without a leading zero. Any
/// other name is none.
pub fn number_of(name: &str) -> Option<u32>
    ensures named { IfSome result (λ number. (name.now ≡ decimal number) × (0 < number)) }
    ensures each { (number : ℕ) → 0 < number → number < 2 ^ 32 → name.now ≡ decimal number
        → result ≡ Some number }
{
    let Ok(number) = name.parse::<u32>() else {
        return None;
    };
    if number == 0 {
        return None;
    }
    if is_text_of(number, name) {
        Some(number)
    } else {
        None
    }
}

// Whether a text is what is written for a number.
fn is_text_of(number: u32, text: &str) -> bool
    ensures { IsTrue result ↔ (text.now ≡ decimal number) }
{
    let mut buffer = Buffer::new();
    text == buffer.format(number)
}
