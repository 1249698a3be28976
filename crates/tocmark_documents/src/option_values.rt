//! Options from their JSON value.

ghost use Rattle.std.specs.Prelude.{◌≡◌, IfErr, IfOk, is_ok};
ghost use Rattle.serde_json.specs.Data.{boolean, number, string};
ghost use Rattle.serde_json.specs.View.{number_view, view};
ghost use Rattle.tocmark_event.specs.Options.{options_view};
ghost use Rattle.tocmark_json.specs.Json.{size_json};
ghost use Rattle.tocmark_documents.specs.Options.{IsOptionFault, IsOptionsJson, IsPut, NamesKey, is_option, is_options_object};

use crate::fault::OptionFault;
use serde_json::{Number, Value};
use tocmark::Options;

fn set_truth(options: &mut Options<'static>, key: &str, truth: bool) -> bool
    ensures put { IsPut result key.now (boolean truth) (options_view options.old)
        (options_view options.new) }
    ensures taken { result ≡ is_option key.now (boolean truth) }
{
    match key {
        "increment_ordered_list_bullets" => options.increment_ordered_list_bullets = truth,
        "use_html_for_super_sub_script" => options.use_html_for_super_sub_script = truth,
        "check_plain_blocks" => options.check_plain_blocks = truth,
        _ => return false,
    }
    true
}

fn set_newlines(options: &mut Options<'static>, key: &str, count: usize) -> bool
    ensures put { IsPut result key.now (size_json count) (options_view options.old)
        (options_view options.new) }
    ensures taken { result ≡ is_option key.now (size_json count) }
{
    match key {
        "newlines_after_headline" => options.newlines_after_headline = count,
        "newlines_after_paragraph" => options.newlines_after_paragraph = count,
        "newlines_after_codeblock" => options.newlines_after_codeblock = count,
        "newlines_after_htmlblock" => options.newlines_after_htmlblock = count,
        "newlines_after_table" => options.newlines_after_table = count,
        "newlines_after_rule" => options.newlines_after_rule = count,
        "newlines_after_list" => options.newlines_after_list = count,
        "newlines_after_blockquote" => options.newlines_after_blockquote = count,
        "newlines_after_rest" => options.newlines_after_rest = count,
        "newlines_after_metadata" => options.newlines_after_metadata = count,
        "code_block_token_count" => options.code_block_token_count = count,
        _ => return false,
    }
    true
}

fn set_token(options: &mut Options<'static>, key: &str, token: &str) -> bool
    ensures put { IsPut result key.now (string token.now) (options_view options.old)
        (options_view options.new) }
    ensures taken { result ≡ is_option key.now (string token.now) }
{
    match (key, token) {
        ("code_block_token", "`") => options.code_block_token = '`',
        ("code_block_token", "~") => options.code_block_token = '~',
        ("list_token", "*") => options.list_token = '*',
        ("list_token", "-") => options.list_token = '-',
        ("list_token", "+") => options.list_token = '+',
        ("ordered_list_token", ".") => options.ordered_list_token = '.',
        ("ordered_list_token", ")") => options.ordered_list_token = ')',
        ("emphasis_token", "*") => options.emphasis_token = '*',
        ("emphasis_token", "_") => options.emphasis_token = '_',
        ("strong_token", "**") => options.strong_token = "**",
        ("strong_token", "__") => options.strong_token = "__",
        _ => return false,
    }
    true
}

fn set_number(options: &mut Options<'static>, key: &str, value: &Number) -> bool
    ensures put { IsPut result key.now (number (number_view value.now)) (options_view options.old)
        (options_view options.new) }
    ensures taken { result ≡ is_option key.now (number (number_view value.now)) }
{
    let Some(count) = value.as_u64() else {
        return false;
    };
    match usize::try_from(count) {
        Ok(count) => set_newlines(options, key, count),
        Err(_) => false,
    }
}

fn set_value(options: &mut Options<'static>, key: &str, value: &Value) -> bool
    ensures put { IsPut result key.now (view value.now) (options_view options.old)
        (options_view options.new) }
    ensures taken { result ≡ is_option key.now (view value.now) }
{
    match value {
        Value::Bool(truth) => set_truth(options, key, *truth),
        Value::String(token) => set_token(options, key, token.as_str()),
        Value::Number(number) => set_number(options, key, number),
        Value::Null | Value::Array(_) | Value::Object(_) => false,
    }
}

/// The value at an option's key.
fn wanted_at(key: &str) -> &'static str {
    match key {
        "code_block_token" => "` or ~",
        "list_token" => "*, - or +",
        "ordered_list_token" => ". or )",
        "emphasis_token" => "* or _",
        "strong_token" => "** or __",
        "increment_ordered_list_bullets" | "use_html_for_super_sub_script" | "check_plain_blocks" =>
            "true or false",
        "newlines_after_headline"
        | "newlines_after_paragraph"
        | "newlines_after_codeblock"
        | "newlines_after_htmlblock"
        | "newlines_after_table"
        | "newlines_after_rule"
        | "newlines_after_list"
        | "newlines_after_blockquote"
        | "newlines_after_rest"
        | "newlines_after_metadata"
        | "code_block_token_count" => "a whole number from 0 to 18446744073709551615",
        _ => "the name of an option",
    }
}

/// Sets the option of a key to a value. An unknown key, and a value that the option can't have, are refused: the error
/// has the key and what is wanted there, and the options stay.
pub fn set_option<'k>(
    options: &mut Options<'static>,
    key: &'k str,
    value: &Value,
) -> Result<(), OptionFault<'k>>
    ensures put { IsPut (is_ok result) key.now (view value.now) (options_view options.old)
        (options_view options.new) }
    ensures taken { is_ok result ≡ is_option key.now (view value.now) }
    ensures key { IfErr result (NamesKey key.now) }
{
    if set_value(options, key, value) {
        return Ok(());
    }
    Err(OptionFault::Wanted {
        key,
        wanted: wanted_at(key),
    })
}

/// Reads options from a JSON object. A field without a key there has its default. An unknown key, and a value that a
/// field can't have, are refused: the error has the first such key in their order, and what is wanted there.
pub fn options_from_json(value: &Value) -> Result<Options<'static>, OptionFault<'_>>
    ensures options { IfOk result (λ options.
        IsOptionsJson (view value.now) (options_view options)) }
    ensures taken { is_ok result ≡ is_options_object (view value.now) }
    ensures fault { IfErr result (IsOptionFault (view value.now)) }
{
    let Value::Object(members) = value else {
        return Err(OptionFault::NotAnObject);
    };
    let mut options = Options::default();
    for (key, value) in members.iter() {
        set_option(&mut options, key.as_str(), value)?;
    }
    Ok(options)
}
