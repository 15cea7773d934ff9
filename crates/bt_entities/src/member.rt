//! Members of a JSON value, by name and by what they have to be: none where they are missing or other.

ghost use Rattle.std.specs.Prelude.{◌≡◌, ℕ, List, map, MatchBool, MatchOption, IsTrue, ◌↔◌};
ghost use Rattle.bt_json.specs.Json.{Json, Number, Items, text, number, list};
ghost use Rattle.bt_json.specs.Stands.{json_of, number_of, items_of};
ghost use Rattle.bt_entities.specs.Members.{HasMember, Lacks, HasText, HasNumber, IsObject};

use bt_json::{Decimal, Tree};

/// The member of that name. None where the value is no object or lacks it.
pub fn member<'a>(value: &'a Tree, name: &str) -> Option<&'a Tree>
    ensures { MatchOption result
        (Lacks (json_of value.now) name.now)
        (λ m. HasMember (json_of value.now) name.now (json_of m.now)) }
{
    value.member(name)
}

/// Whether there is a member of that name.
pub fn has_member(value: &Tree, name: &str) -> bool
    ensures { MatchBool result
        ((m : Json) × HasMember (json_of value.now) name.now m)
        (Lacks (json_of value.now) name.now) }
{
    match member(value, name) {
        Some(_) => true,
        None => false,
    }
}

/// Whether the value is an object.
pub fn is_object(value: &Tree) -> bool
    ensures { IsTrue result ↔ IsObject (json_of value.now) }
{
    match value {
        Tree::Object {
            names: _,
            values: _,
        } => true,
        _ => false,
    }
}

/// The text that the value is; None where it is none.
pub fn as_text(value: &Tree) -> Option<&str>
    ensures { MatchOption result
        ((t : List ℕ) → ¬ (json_of value.now ≡ text t))
        (λ t. json_of value.now ≡ text t.now) }
{
    match value {
        Tree::Text(text) => Some(text.as_str()),
        _ => None,
    }
}

/// The list that the value is; None where it is none.
pub fn as_list(value: &Tree) -> Option<&[Tree]>
    ensures { MatchOption result
        ((items : Items) → ¬ (json_of value.now ≡ list items))
        (λ values. json_of value.now ≡ list (items_of (map json_of values.now))) }
{
    match value {
        Tree::List(values) => Some(values.as_slice()),
        _ => None,
    }
}

/// The number that the value is; None where it is none.
pub fn as_number(value: &Tree) -> Option<&Decimal>
    ensures { MatchOption result
        ((n : Number) → ¬ (json_of value.now ≡ number n))
        (λ n. json_of value.now ≡ number (number_of n.now)) }
{
    match value {
        Tree::Num(number) => Some(number),
        _ => None,
    }
}

/// The member of that name, where it is a text; else None.
pub fn text_member<'a>(value: &'a Tree, name: &str) -> Option<&'a str>
    ensures { MatchOption result
        ((t : List ℕ) → ¬ HasText (json_of value.now) name.now t)
        (λ t. HasText (json_of value.now) name.now t.now) }
{
    match member(value, name) {
        Some(value) => as_text(value),
        None => None,
    }
}

/// The member of that name, where it is a number; else None.
pub fn number_member<'a>(value: &'a Tree, name: &str) -> Option<&'a Decimal>
    ensures { MatchOption result
        ((n : Number) → ¬ HasNumber (json_of value.now) name.now n)
        (λ n. HasNumber (json_of value.now) name.now (number_of n.now)) }
{
    match member(value, name) {
        Some(value) => as_number(value),
        None => None,
    }
}
