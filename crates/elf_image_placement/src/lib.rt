//! The read rules of ELF files on where segments and sections stand, checked before an image is made. Each is checked
//! in time in proportion to what it looks at, or to that times its logarithm.
#![tactic(auto)]

pub mod placement;
