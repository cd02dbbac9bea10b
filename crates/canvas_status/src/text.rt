//! The parts of a text.
ghost use Rattle.std.specs.Prelude.{◌≡◌, ◌<◌, ◌+◌, ◌++◌, OnOk, decimal, drop};
ghost use Rattle.canvas_status.specs.Samples.{labelled, plain, seconds_text};

use canvas_code::OutOfMemory;
use itoa::Buffer;

/// Appends a text.
pub(crate) fn push_text(out: &mut Vec<u8>, text: &str) -> Result<(), OutOfMemory>
    ensures { OnOk result (out.new.items ≡ out.old.items ++ text.now) }
{
    out.extend_from_slice(text.as_bytes())?;
    Ok(())
}

/// Appends a number in decimal digits.
pub(crate) fn push_number(out: &mut Vec<u8>, number: u64) -> Result<(), OutOfMemory>
    ensures { OnOk result (out.new.items ≡ out.old.items ++ decimal number) }
{
    let mut digits = Buffer::new();
    push_text(out, digits.format(number))
}

/// Appends microseconds as seconds, with six digits behind the point.
#[tactic(auto, unfolding(crate::specs::Samples::seconds_text))]
pub(crate) fn push_seconds(out: &mut Vec<u8>, micros: u64) -> Result<(), OutOfMemory>
    ensures { OnOk result (out.new.items ≡ out.old.items ++ seconds_text micros) }
{
    push_number(out, micros / 1_000_000)?;
    push_text(out, ".")?;
    push_part(out, micros % 1_000_000)
}

// Appends microseconds below a second, as six digits.
fn push_part(out: &mut Vec<u8>, micros: u64) -> Result<(), OutOfMemory>
    requires { micros < 1000000 }
    ensures { OnOk result (out.new.items ≡ out.old.items ++ drop 1 (decimal (1000000 + micros))) }
{
    let mut digits = Buffer::new();
    if let Some((_, six)) = digits.format(1_000_000 + micros).as_bytes().split_first() {
        out.extend_from_slice(six)?;
    }
    Ok(())
}

/// Appends a sample without a label.
#[tactic(auto, unfolding(crate::specs::Samples::plain))]
pub(crate) fn push_plain(out: &mut Vec<u8>, name: &str, value: u64) -> Result<(), OutOfMemory>
    ensures { OnOk result (out.new.items ≡ out.old.items ++ plain name.now (decimal value)) }
{
    push_text(out, name)?;
    push_text(out, " ")?;
    push_number(out, value)?;
    push_text(out, "\n")
}

/// Appends a sample in seconds.
#[tactic(auto, unfolding(crate::specs::Samples::plain))]
pub(crate) fn push_time(out: &mut Vec<u8>, name: &str, micros: u64) -> Result<(), OutOfMemory>
    ensures { OnOk result (out.new.items ≡ out.old.items ++ plain name.now (seconds_text micros)) }
{
    push_text(out, name)?;
    push_text(out, " ")?;
    push_seconds(out, micros)?;
    push_text(out, "\n")
}

/// Appends a sample with a label.
#[tactic(auto, unfolding(crate::specs::Samples::labelled))]
pub(crate) fn push_labelled(
    out: &mut Vec<u8>,
    name: &str,
    label: &str,
    of: &str,
    value: u64,
) -> Result<(), OutOfMemory>
    ensures { OnOk result
        (out.new.items ≡ out.old.items ++ labelled name.now label.now of.now (decimal value)) }
{
    push_text(out, name)?;
    push_text(out, "{")?;
    push_text(out, label)?;
    push_text(out, "=\"")?;
    push_text(out, of)?;
    push_text(out, "\"} ")?;
    push_number(out, value)?;
    push_text(out, "\n")
}
