//! What the line of a command is made of: its name, what it does, and its values in order.
ghost use Rattle.std.specs.Prelude.{◌≡◌, map, option_map};
ghost use Rattle.command_words.specs.Rows.{named, row_model};

/// A value of a command, as help shows it.
#[derive(Clone, Copy, Debug)]
pub struct Value {
    /// What stands for the value in help.
    pub name: &'static str,
    /// What the value is.
    pub help: &'static str,
}

/// An option of a command, which takes a value and may be given again.
#[derive(Clone, Copy, Debug)]
pub struct ValueOption {
    /// The option's long name, which stands behind two hyphens.
    pub long: &'static str,
    /// The option's short name, which stands behind one hyphen.
    pub short: char,
    /// The option's value.
    pub value: Value,
}

/// The values that a command takes, in the order of its words. The path of its file is one of them.
#[derive(Clone, Copy, Debug)]
pub enum ValueForm {
    /// The path alone.
    Path,
    /// A text and the path.
    Text(Value),
    /// Two texts and the path.
    Texts(Value, Value),
    /// The path and any number of words.
    Words(Value),
    /// The path, and any number of values of an option.
    Options(ValueOption),
}

impl ValueForm {
    ghost use Rattle.std.specs.Prelude.{◌≡◌};
    ghost use Rattle.command_words.specs.Rows.{count_of, kind_model};

    /// How many words there are besides the path, where that is fixed.
    pub fn word_count(&self) -> usize
        ensures { result ≡ count_of (kind_model self.now) }
    {
        match self {
            ValueForm::Text(_) => 1,
            ValueForm::Texts(..) => 2,
            ValueForm::Path | ValueForm::Words(_) | ValueForm::Options(_) => 0,
        }
    }
}

/// A command: the one place that says how it is written.
#[derive(Clone, Copy, Debug)]
pub struct Row {
    /// The word that names the command.
    pub name: &'static str,
    /// What the command does.
    pub about: &'static str,
    /// The values that the command takes.
    pub form: ValueForm,
    /// Whether `apply` takes the command as an edit.
    pub is_edit: bool,
    /// What help says below the values; empty where that is nothing.
    pub more: &'static str,
}

/// The values that a command was given, in the order of its words.
#[derive(Debug, Drop)]
pub enum Values {
    /// The path alone.
    Path(String),
    /// A text and the path.
    Text(String, String),
    /// Two texts and the path.
    Texts(String, String, String),
    /// The path and the words.
    Words(String, Vec<String>),
    /// The path and the values of the option.
    Options(String, Vec<String>),
}

/// The row of a name.
pub fn find_row<'a>(rows: &'a [Row], name: &str) -> Option<&'a Row>
    ensures { option_map (λ row. row_model row.now) result
        ≡ named (map row_model rows.entry.now) name.now }
{
    for row in rows {
        if name == row.name {
            return Some(row);
        }
    }
    None
}
