//! What follows from the definitions.
ghost use Rattle.rows.specs.Reading.{OneSpelling};

/// A line spells one call with one word: two readings of it differ in nothing but the rail of a call
/// that opens a handle, and in the bytes that the name of a handle doesn't use.
pub fn one_spelling()
    ensures { OneSpelling }
{}
