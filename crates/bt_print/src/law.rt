//! A law of what is written, as the contract of a function that does nothing.
ghost use Rattle.bt_print.specs.BuiltTexts.{BuiltIsRead};

/// What `build --request` writes is read as a request for the network that is built, whose inputs stand side by side at
/// the south and its outputs at the north.
pub fn built_is_read()
    ensures { BuiltIsRead }
{}
