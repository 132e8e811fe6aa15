// The words that every log begins with.

/// The place of the word true.
pub const TRUE_PLACE: u32 = 0;

/// The place of the word false.
pub const FALSE_PLACE: u32 = 1;
