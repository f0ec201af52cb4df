//! Members of JSON objects.
ghost use Rattle.std.specs.Prelude.{◌≡◌, ◌++◌, ◌∷◌, [], IfOk, OnOk};
ghost use Rattle.serde_json.specs.Data.{boolean, put as with_member, string};
ghost use Rattle.serde_json.specs.View.{members_view, view};
ghost use Rattle.arwen_cli_show.specs.Json.{number_data, number_data_if, text_data_if, texts_data};
ghost use Rattle.arwen_cli_facts.specs.Texts.{text_model, texts_model};

use serde_json::{Map, Value, put};
use std::alloc::{AllocError, Global};

/// The members of an object.
pub(crate) type Members = Map<String, Value>;

/// An array of texts.
pub(crate) fn texts_value(alloc: Global, texts: &[String]) -> Result<Value, AllocError>
    ensures { IfOk result (λ v. view v ≡ texts_data (texts_model texts.now)) }
{
    let mut made = Vec::new(alloc);
    for text in texts {
        push_value(&mut made, Value::try_from_str(alloc, text.as_str())?)?;
    }
    Ok(Value::Array(made))
}

/// Puts a value behind others.
pub(crate) fn push_value(values: &mut Vec<Value>, value: Value) -> Result<(), AllocError>
    ensures { OnOk result (values.new.items ≡ values.old.items ++ value ∷ []) }
{
    values.push(value)?;
    Ok(())
}

/// Puts a text among members.
pub(crate) fn put_text(
    alloc: Global,
    members: &mut Members,
    key: &str,
    text: &str,
) -> Result<(), AllocError>
    ensures { OnOk result (members_view members.new.entries
        ≡ with_member key.now (string text.now) (members_view members.old.entries)) }
{
    let value = Value::try_from_str(alloc, text)?;
    put(members, alloc, key, value)
}

/// Puts a text among members, or null where there is none.
pub(crate) fn put_text_if(
    alloc: Global,
    members: &mut Members,
    key: &str,
    text: &Option<String>,
) -> Result<(), AllocError>
    ensures { OnOk result (members_view members.new.entries
        ≡ with_member key.now (text_data_if (text_model text.now))
        (members_view members.old.entries)) }
{
    match text {
        None => put(members, alloc, key, Value::Null),
        Some(text) => put_text(alloc, members, key, text.as_str()),
    }
}

/// Puts texts among members.
pub(crate) fn put_texts(
    alloc: Global,
    members: &mut Members,
    key: &str,
    texts: &[String],
) -> Result<(), AllocError>
    ensures { OnOk result (members_view members.new.entries
        ≡ with_member key.now (texts_data (texts_model texts.now))
        (members_view members.old.entries)) }
{
    let value = texts_value(alloc, texts)?;
    put(members, alloc, key, value)
}

/// Puts a number among members.
pub(crate) fn put_number(
    alloc: Global,
    members: &mut Members,
    key: &str,
    number: u64,
) -> Result<(), AllocError>
    ensures { OnOk result (members_view members.new.entries
        ≡ with_member key.now (number_data number) (members_view members.old.entries)) }
{
    put(members, alloc, key, Value::from(number))
}

/// Puts a number among members, or null where there is none.
pub(crate) fn put_number_if(
    alloc: Global,
    members: &mut Members,
    key: &str,
    number: Option<u64>,
) -> Result<(), AllocError>
    ensures { OnOk result (members_view members.new.entries
        ≡ with_member key.now (number_data_if number) (members_view members.old.entries)) }
{
    match number {
        None => put(members, alloc, key, Value::Null),
        Some(number) => put_number(alloc, members, key, number),
    }
}

/// Puts a yes or a no among members.
pub(crate) fn put_answer(
    alloc: Global,
    members: &mut Members,
    key: &str,
    is: bool,
) -> Result<(), AllocError>
    ensures { OnOk result (members_view members.new.entries
        ≡ with_member key.now (boolean is) (members_view members.old.entries)) }
{
    put(members, alloc, key, Value::from(is))
}
