//! Colours and their text of six hex digits.

ghost use Rattle.std.specs.Prelude.{◌≡◌, ◌↔◌, ◌<◌, ◌*◌, All, Some, Ok, length, IsErr, IsSome, MatchOption};
ghost use Rattle.std.specs.List.{AllPass};
ghost use Rattle.hex.specs.Hex.{decode_sized, encode_lower, is_hex_digit};
ghost use Rattle.canvas_shape.specs.Names.{colour_named, colour_text};

use crate::Colour;
use hex::FromHex;

impl Colour {
    /// The colour of six hex digits in either case, as `ff8000`; `None` for any other text.
    pub fn read(text: &str) -> Option<Colour>
        ensures value { result ≡ colour_named text.now }
        ensures digits { IsSome result ↔ ((length text.now ≡ 6) × AllPass is_hex_digit text.now) }
    {
        Some(Colour(bytes_of(text)?))
    }

    /// The colour as six hex digits, with lower case letters. `read` gives the colour back.
    pub fn text(&self) -> [u8; 6]
        ensures value { result ≡ colour_text self.now }
        ensures read { colour_named result ≡ Some self.now }
        ensures ascii { All (λ byte. byte < 128) result }
    {
        let mut text = [0; 6];
        write_digits(&self.0, &mut text);
        text
    }
}

fn bytes_of(text: &str) -> Option<[u8; 3]>
    ensures value { MatchOption result (IsErr (decode_sized text.now 3))
        (λ bytes. decode_sized text.now 3 ≡ Ok bytes) }
    ensures digits { IsSome result ↔ ((length text.now ≡ 6) × AllPass is_hex_digit text.now) }
{
    <[u8; 3] as FromHex>::from_hex(text).ok()
}

fn write_digits(bytes: &[u8], text: &mut [u8])
    requires { length text.old ≡ 2 * length bytes.now }
    ensures value { text.new ≡ encode_lower bytes.now }
    ensures read { decode_sized text.new (length bytes.now) ≡ Ok bytes.now }
    ensures ascii { All (λ byte. byte < 128) text.new }
{
    let _ = hex::encode_to_slice(bytes, text);
}
