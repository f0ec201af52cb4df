//! Hash tables of symbols, and their versions in the order of such a table.

mod built;
mod many;
mod worked;
