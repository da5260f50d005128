//! Lists of values of one shape, and objects of them.
ghost use Rattle.std.specs.Prelude.{◌≡◌, IfOk};
ghost use Rattle.serde_json.specs.View.{view, items_view, members_view};
ghost use Rattle.gg_partfile.specs.Shapes.{each, list, each_member, named};

use crate::shapes::FromValue;
use gg_bits::{Items, Name};
use serde_json::{Map, Value};
use std::alloc::{AllocError, Global};

// What is read of a list's items, if all of them are read.
pub(crate) fn list_of<T: FromValue>(
    alloc: Global,
    value: &Value,
) -> Result<Option<Items<T>>, AllocError>
    ensures { IfOk result (λ found. list T.reads (view value.now) ≡ found) }
{
    match value.as_array() {
        Some(items) => each(alloc, items.as_slice()),
        None => Ok(None),
    }
}

// What is read of the items, if all of them are read.
fn each<T: FromValue>(alloc: Global, items: &[Value]) -> Result<Option<Items<T>>, AllocError>
    ensures { IfOk result (λ found. each T.reads (items_view items.now) ≡ found) }
{
    let mut found = Vec::new(alloc);
    for item in items {
        match T::from_value(alloc, item)? {
            Some(read) => found.push(read)?,
            None => return Ok(None),
        }
    }
    Ok(Some(Items::from(found)))
}

// What is read of an object's members, with their keys, if all of them are read.
pub(crate) fn named_of<T: FromValue>(
    alloc: Global,
    value: &Value,
) -> Result<Option<Items<(Name, T)>>, AllocError>
    ensures { IfOk result (λ found. named T.reads (view value.now) ≡ found) }
{
    match value.as_object() {
        Some(members) => each_member(alloc, members),
        None => Ok(None),
    }
}

// What is read of the members, with their keys, if all of them are read.
fn each_member<T: FromValue>(
    alloc: Global,
    members: &Map<String, Value>,
) -> Result<Option<Items<(Name, T)>>, AllocError>
    ensures { IfOk result (λ found. each_member T.reads (members_view members.now.entries) ≡ found) }
{
    let mut found = Vec::new(alloc);
    for (key, value) in members {
        match T::from_value(alloc, value)? {
            Some(read) => found.push((Name::from_str(alloc, key.as_str())?, read))?,
            None => return Ok(None),
        }
    }
    Ok(Some(Items::from(found)))
}
