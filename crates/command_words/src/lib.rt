//! What the commands for either kind of file share: the rows that say how each is written, the values that it
//! takes, pairs and numbers, the groups of words that are edits, which files are read, how much of them, and whether
//! notes of an edit are wanted; and what is left where an edit fails.
#![tactic(auto)]

mod edits;
mod file;
mod key_value;
mod loading;
mod not_done;
mod noting;
mod opens_once;
mod parts;
mod rows;
mod word_values;

pub use edits::{
    EditFault, EditKind, EditsError, copied, copies, edit_row, no_edit, no_values, other_words,
    values_without_path, words_of,
};
pub use file::{MOST_BYTES, RegularFiles};
pub use key_value::{KeyValueError, decimal_number, parse_key_val};
pub use loading::{FileBytes, RegularBytes, load, load_path};
pub use not_done::NotDone;
pub use noting::Notes;
pub use opens_once::OpensOnce;
pub use parts::filled_parts;
pub use rows::{Row, Value, ValueForm, ValueOption, Values, find_row};
pub use word_values::{ValueError, number_of, pairs_of};
