//! The first lines of certificates, as they are read again.
ghost use Rattle.std.specs.Prelude.{◌≡◌, ◌++◌, ◌↔◌, IsTrue, codes};
ghost use Rattle.bt_flow.specs.Names.{property_name};
ghost use Rattle.bt_print.specs.Answers.{none_word};

use bt_flow::Property;
use bt_text::after_word;

/// Whether the line says that the network has the property.
pub fn says_yes(property: Property, line: &[u8]) -> bool
    ensures { IsTrue result ↔ (line.now ≡ codes "yes " ++ property_name property) }
{
    match after_word(line, b"yes ") {
        Some(name) => name == property.name().as_bytes(),
        None => false,
    }
}

/// Whether the line says that the network lacks the property.
pub fn says_no(property: Property, line: &[u8]) -> bool
    ensures { IsTrue result ↔ (line.now ≡ codes "no " ++ property_name property) }
{
    match after_word(line, b"no ") {
        Some(name) => name == property.name().as_bytes(),
        None => false,
    }
}

/// Whether the line says that there is no layout.
pub fn says_none(line: &[u8]) -> bool
    ensures { IsTrue result ↔ (line.now ≡ none_word) }
{
    line == b"none".as_slice()
}

/// Whether the line says that the networks behave the same.
pub fn says_same(line: &[u8]) -> bool
    ensures { IsTrue result ↔ (line.now ≡ codes "same") }
{
    line == b"same".as_slice()
}

/// Whether the line says that the networks don't behave the same.
pub fn says_differ(line: &[u8]) -> bool
    ensures { IsTrue result ↔ (line.now ≡ codes "differ") }
{
    line == b"differ".as_slice()
}
