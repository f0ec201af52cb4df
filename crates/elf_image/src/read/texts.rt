//! The parts of an image that have texts; each is absent exactly where one of its texts isn't there.

pub(crate) mod entries;
pub(crate) mod sections;
pub(crate) mod symbols;
