//! Index keys: short texts that order siblings, with room between any two.
#![tactic(auto)]

ghost use Rattle.std.specs.Prelude.{◌≡◌, ◌≤◌, Some, MatchResult, length, IfOk};
ghost use Rattle.std.specs.Option.{option_copied};
ghost use Rattle.canvas_key.specs.Order.{is_before, AreApart, IsAbove, IsBelow};
ghost use Rattle.canvas_key.specs.Fault.{fault_code};
ghost use Rattle.canvas_key.specs.Text.{IsKey, key_fault};
ghost use Rattle.canvas_key.specs.Between.{key_between};

mod digit;
mod gap;
mod middle;
mod part;
mod spaced;
mod text;

use arrayvec::ArrayVec;
use canvas_code::Coded;
pub use gap::{between, defined_keys_lie_between};
pub use spaced::{first_fresh, fresh, fresh_keys_rise, parts_are_in_order, ranks_number_the_parts};
use std::marker::Model;
use text::{fault_of, text_of};
use thiserror::Error;

/// The most bytes that a key can have.
pub const KEY_LIMIT: usize = 128;

/// An index key, seen as the list of its bytes.
#[derive(Debug, PartialEq, Eq, PartialOrd, Ord, Drop)]
pub struct Key {
    text: ArrayVec<u8, KEY_LIMIT>,
}

impl Model for Key {
    ghost use Rattle.std.specs.Prelude.{List, ℕ};
    ghost use Rattle.canvas_key.specs.Text.{IsKey};

    ghost Value = { List ℕ };

    ghost view = { λ key. key.text.items };

    ghost inverse = { λ bytes. record { text = record { items = bytes } } };

    ghost invariant = { λ key. IsKey key.text.items };
}

/// Why a text is no key, or why there is no such key.
#[derive(Clone, Copy, Debug, PartialEq, Eq, Drop, Error)]
#[error("{}", self.name())]
pub enum KeyFault {
    /// The key between the two would have more than 128 bytes.
    NoRoom,
    /// The first byte is no letter, or there is none.
    BadHead,
    /// There are fewer bytes than the first one asks for.
    TooShort,
    /// A byte behind the first is no digit of base 62.
    BadDigit,
    /// The last byte behind the integer part is `0`.
    LastZero,
    /// It is `A` and 26 zeros, below which there would be no key.
    LeastInteger,
    /// There are more than 128 bytes.
    KeyTooLong,
}

impl Coded for KeyFault {
    ghost code_of = { fault_code };

    fn code(&self) -> u16 {
        match self {
            KeyFault::NoRoom => 13,
            KeyFault::BadHead => 20,
            KeyFault::TooShort => 21,
            KeyFault::BadDigit => 22,
            KeyFault::LastZero => 23,
            KeyFault::LeastInteger => 24,
            KeyFault::KeyTooLong => 25,
        }
    }
}

impl Key {
    /// The key with this text.
    pub fn read(text: &[u8]) -> Result<Key, KeyFault>
        ensures { MatchResult result (λ key. (key ≡ text.now) × IsKey text.now)
            (λ fault. key_fault text.now ≡ Some fault) }
    {
        match fault_of(text) {
            Some(fault) => Err(fault),
            None => Ok(Key {
                text: text_of(text),
            }),
        }
    }

    /// The text of the key.
    pub fn bytes(&self) -> &[u8]
        ensures text { result.now ≡ self.now }
        ensures key { IsKey self.now }
    {
        self.text.as_slice()
    }

    /// Whether this key comes before another.
    pub fn is_before(&self, other: &Key) -> bool
        ensures { result ≡ is_before self.now other.now }
    {
        self.cmp(other).is_lt()
    }

    /// An equal key.
    pub fn copy(&self) -> Key
        ensures { result ≡ self.now }
    {
        Key {
            text: text_of(self.bytes()),
        }
    }
}
