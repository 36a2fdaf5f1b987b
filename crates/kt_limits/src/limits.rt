//! The limits of the language, by their names.

/// The greatest weight of a function, a member, a constructor or a lambda.
pub const MOST_WEIGHT: u64 = 32_000;

/// The most nodes of a class.
pub const MOST_NODES: u64 = 4_000;

/// The most parameters of a function, a member, a constructor or a lambda.
pub const MOST_PARAMETERS: u64 = 100;

/// The most captures of a lambda, `this` among them.
pub const MOST_CAPTURES: u64 = 100;

/// The most characters of an identifier.
pub const MOST_CHARACTERS: u64 = 255;

/// The most bytes of a part of a string that is text, in modified UTF-8 (JVMS SE 8 §4.4.7).
pub const MOST_BYTES: u64 = 65_535;
