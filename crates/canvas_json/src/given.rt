//! A value of a text, where it stands among the tokens of the text.
ghost use Rattle.std.specs.Prelude.{◌≡◌, ◌<◌, ◌∷◌, Some, None, is_some, length, option_map, option_and_then, MatchOption, OnSome};
ghost use Rattle.serde_json.specs.Data.{no_items, item};
ghost use Rattle.serde_json.specs.Find.{get, as_null, as_bool, as_number, as_str, as_array, as_object, as_i64};
ghost use Rattle.canvas_json.specs.Given.{view, items_view, HasData};
ghost use Rattle.canvas_json.specs.MemberNames.{HoldsNames};

use crate::number::whole;
use json::{Element, Items, Members, Tape};
use std::marker::Model;

/// A value that serde_json takes: its contracts are those of `serde_json::Value`.
#[derive(Drop)]
pub struct Given<'t, 'a> {
    place: Element<'t, 'a>,
}

impl<'t, 'a> Model for Given<'t, 'a> {
    ghost use Rattle.std.specs.Prelude.{List};
    ghost use Rattle.json.specs.Token.{Token, tokens_code};

    ghost Value = { List Token };

    ghost coded = { tokens_code };

    ghost use Rattle.canvas_json.specs.Given.{HasData};

    ghost view = { λ a. a.place };

    ghost invariant = { λ a. HasData a.place };
}

/// The items of an array that are left.
#[derive(Drop)]
pub struct GivenItems<'t, 'a> {
    items: Items<'t, 'a>,
}

impl<'t, 'a> Model for GivenItems<'t, 'a> {
    ghost use Rattle.std.specs.Prelude.{List};
    ghost use Rattle.json.specs.Token.{Token, tokens_code};

    ghost Value = { List Token };

    ghost coded = { tokens_code };

    ghost use Rattle.canvas_json.specs.Given.{HasItems};

    ghost view = { λ a. a.items };

    ghost invariant = { λ a. HasItems a.items };
}

impl<'t, 'a> Given<'t, 'a> {
    /// The value that is the whole text.
    pub fn root(tape: &'t Tape<'a>) -> Given<'t, 'a>
        requires { HasData tape.now }
        ensures { result ≡ tape.now }
    {
        Given { place: tape.root() }
    }

    /// The last member of that name, where this is an object.
    pub fn get(&self, name: &str) -> Option<Given<'t, 'a>>
        ensures { option_map view result ≡ get name.now (view self.now) }
    {
        match self.place.get(name) {
            Some(place) => Some(Given { place }),
            None => None,
        }
    }

    pub fn as_str(&self) -> Option<&'a str>
        ensures { option_map (λ s. s.now) result ≡ as_str (view self.now) }
    {
        self.place.as_str()
    }

    pub fn as_i64(&self) -> Option<i64>
        ensures { result ≡ option_and_then as_i64 (as_number (view self.now)) }
    {
        match self.place.as_number() {
            Some(text) => whole(text),
            None => None,
        }
    }

    pub fn as_bool(&self) -> Option<bool>
        ensures { result ≡ as_bool (view self.now) }
    {
        self.place.as_bool()
    }

    pub fn is_null(&self) -> bool
        ensures { result ≡ is_some (as_null (view self.now)) }
    {
        self.place.is_null()
    }

    pub fn items(&self) -> Option<GivenItems<'t, 'a>>
        ensures { option_map items_view result ≡ as_array (view self.now) }
    {
        match self.place.items() {
            Some(items) => Some(GivenItems { items }),
            None => None,
        }
    }

    /// The names of an object's members, each as often as it comes.
    pub fn members(&self) -> Option<Members<'t, 'a>>
        ensures { HoldsNames result (as_object (view self.now)) }
    {
        self.place.members()
    }

    pub fn is_object(&self) -> bool
        ensures { result ≡ is_some (as_object (view self.now)) }
    {
        self.members().is_some()
    }
}

impl<'t, 'a> GivenItems<'t, 'a> {
    /// The next item.
    pub fn next(&mut self) -> Option<Given<'t, 'a>>
        ensures value { MatchOption result (items_view self.old ≡ no_items)
            (λ value. items_view self.old ≡ item (view value) (items_view self.new)) }
        ensures shorter { OnSome result (length self.new < length self.old) }
    {
        let place = self.items.next()?;
        Some(Given { place })
    }
}
