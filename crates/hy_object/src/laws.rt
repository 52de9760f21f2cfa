// Laws of objects and their bytes, each the contract of a call that does nothing.
ghost use Rattle.hy_object.specs.Places.{OneSpelling, OnePlace, ObjectOrPlace, DecodesAgain};

/// No two objects have the same bytes.
pub fn one_spelling()
    ensures { OneSpelling }
{}

/// Bytes are bad at one place at most.
pub fn one_place()
    ensures { OnePlace }
{}

/// Any bytes are an object's, or bad at some place.
pub fn object_or_place()
    ensures { ObjectOrPlace }
{}

/// What is decoded of an object's own bytes is that object.
pub fn decodes_again()
    ensures { DecodesAgain }
{}
