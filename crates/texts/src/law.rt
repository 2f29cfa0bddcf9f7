//! What is written is read back.

ghost use Rattle.texts.specs.Json.{JsonLaw};
ghost use Rattle.texts.specs.Texts.{TextLaw, WordLaw};

/// Law: the text of some bytes is a text of these bytes, and of no others.
pub fn texts_are_read()
    ensures { TextLaw }
{}

/// Law: so is the word of some bytes, and it has no space.
pub fn words_are_read()
    ensures { WordLaw }
{}

/// Law that a reader of JSON finds in an object's text what was written, and the bytes in it.
pub fn json_is_read()
    ensures { JsonLaw }
{}
