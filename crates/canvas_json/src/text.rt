//! Pieces of compact JSON, each appended to the text so far.
ghost use Rattle.std.specs.Prelude.{◌≡◌, ◌<◌, ◌^◌, ◌++◌, OnOk, decimal};
ghost use Rattle.std.specs.Fmt.{signed_decimal};
ghost use Rattle.serde_json.specs.Written.{comma_if};
ghost use Rattle.canvas_json.specs.Texts.{boolean_text, in_quotes};

use itoa::Buffer;
use std::alloc::AllocError;

/// Appends these very bytes.
pub fn push_text(out: &mut Vec<u8>, text: &str) -> Result<(), AllocError>
    ensures { OnOk result (out.new.items ≡ out.old.items ++ text.now) }
{
    out.extend_from_slice(text.as_bytes())
}

/// Appends a comma, where something stands before.
pub fn push_comma(out: &mut Vec<u8>, later: bool) -> Result<(), AllocError>
    ensures { OnOk result (out.new.items ≡ out.old.items ++ comma_if later) }
{
    push_text(out, if later { "," } else { "" })
}

/// Appends `true` or `false`.
#[tactic(auto, unfolding(crate::specs::Texts::boolean_text))]
pub fn push_bool(out: &mut Vec<u8>, b: bool) -> Result<(), AllocError>
    ensures { OnOk result (out.new.items ≡ out.old.items ++ boolean_text b) }
{
    push_text(out, if b { "true" } else { "false" })
}

/// Appends a number from 0 on.
pub fn push_unsigned(out: &mut Vec<u8>, n: u32) -> Result<(), AllocError>
    ensures text { OnOk result (out.new.items ≡ out.old.items ++ decimal n) }
    ensures fits { n < 2 ^ 32 }
{
    let mut digits = Buffer::new();
    push_text(out, digits.format(n))
}

/// Appends a number with a sign.
pub fn push_integer(out: &mut Vec<u8>, number: i64) -> Result<(), AllocError>
    ensures { OnOk result (out.new.items ≡ out.old.items ++ signed_decimal number) }
{
    let mut digits = Buffer::new();
    push_text(out, digits.format(number))
}

/// Appends a text of bytes that stand for themselves, in quotes.
pub fn push_quoted(out: &mut Vec<u8>, text: &[u8]) -> Result<(), AllocError>
    ensures { OnOk result (out.new.items ≡ out.old.items ++ in_quotes text.now) }
{
    push_text(out, "\"")?;
    out.extend_from_slice(text)?;
    push_text(out, "\"")
}
