//! Where keys stand in a document, and how they are written.

ghost use Rattle.std.specs.Prelude.{◌≡◌, IfOk, option_map, string_bytes};
ghost use Rattle.toml.specs.View.{items_view, view};
ghost use Rattle.machine_desc.specs.Document.{dotted, elements, holder, integer_in, region_key};

use std::alloc::Global;
use toml::Value;
use wx_base::{NoMemory, Text, push_number};

/// What stands where the table of a name should be; the whole document for no name.
pub(crate) fn holder<'a>(document: &'a Value, name: &str) -> Option<&'a Value>
    ensures { option_map (λ v. view v.now) result ≡ holder (view document.now) name.now }
{
    if name.is_empty() {
        Some(document)
    } else {
        document.get(name)
    }
}

/// The regions, each as the document has it.
pub(crate) fn elements(document: &Value) -> &[Value]
    ensures { items_view result.now ≡ elements (view document.now) }
{
    match document.get("region") {
        Some(value) => match value.as_array() {
            Some(items) => items.as_slice(),
            None => &[],
        },
        None => &[],
    }
}

/// The whole number at a name of a table, 0 where there is none.
pub(crate) fn integer_in(holder: &Value, name: &str) -> i64
    ensures { result ≡ integer_in name.now (view holder.now) }
{
    match holder.get(name) {
        Some(value) => value.as_integer().unwrap_or(0),
        None => 0,
    }
}

/// A key of a table as it is written in refusals.
pub(crate) fn dotted(alloc: Global, prefix: &[u8], name: &[u8]) -> Result<Text, NoMemory>
    ensures { IfOk result (λ key. key ≡ dotted prefix.now name.now) }
{
    let mut key = Vec::new(alloc);
    if !prefix.is_empty() {
        key.extend_from_slice(prefix)?;
        key.extend_from_slice(b".")?;
    }
    key.extend_from_slice(name)?;
    Ok(Text::new(key))
}

/// The key of a region by its place.
pub(crate) fn region_key(alloc: Global, index: usize) -> Result<Text, NoMemory>
    ensures { IfOk result (λ key. key ≡ region_key index) }
{
    let mut number = Vec::new(alloc);
    push_number(&mut number, index as i128)?;
    dotted(alloc, b"region", number.as_slice())
}
