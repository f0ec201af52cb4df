//! The walk over blocks: rows, and lists that are made, against plain functions that look at all pairs.

mod made;
mod plain;
mod rows;
mod walk;
