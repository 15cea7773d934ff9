//! What follows from the definition of a blueprint's text.
ghost use Rattle.bt_entities.specs.ReadBack.{WrittenIsRead};

/// The text that `text_of` writes of parts is read by `bt_json` and `bt_entities` as the same parts, for
/// at most as many as a blueprint may have, with centres in range.
pub fn written_is_read()
    ensures { WrittenIsRead }
{}
