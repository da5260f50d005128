//! Values of a certain shape.
ghost use Rattle.std.specs.Prelude.{◌≡◌, IfOk};
ghost use Rattle.serde_json.specs.View.{view};
ghost use Rattle.gg_partfile.specs.Shapes.{ratio, required};

use crate::keys::other_member;
use crate::lists::{list_of, named_of};
use crate::request::{BridgeEntry, Bridges, Capacities, Clocks, Groups};
use gg_bits::{Name, Names};
use serde_json::Value;
use std::alloc::{AllocError, Global};

// What can be read of a JSON value, if it has a certain shape.
pub(crate) trait FromValue: Drop {
    ghost use Rattle.std.specs.Prelude.{Option};
    ghost use Rattle.serde_json.specs.Data.{Data};

    // What is read of a value: none if it has another shape.
    ghost reads: { Data → Option Self };

    // Reads a value.
    fn from_value(alloc: Global, value: &Value) -> Result<Option<Self>, AllocError>
        ensures { IfOk result (λ found. reads (view value.now) ≡ found) };
}

impl FromValue for Name {
    ghost use Rattle.serde_json.specs.Find.{as_str};

    ghost reads = { as_str };

    fn from_value(alloc: Global, value: &Value) -> Result<Option<Name>, AllocError> {
        match value.as_str() {
            Some(text) => Ok(Some(Name::from_str(alloc, text)?)),
            None => Ok(None),
        }
    }
}

impl FromValue for bool {
    ghost use Rattle.serde_json.specs.Find.{as_bool};

    ghost reads = { as_bool };

    fn from_value(_alloc: Global, value: &Value) -> Result<Option<bool>, AllocError> {
        Ok(value.as_bool())
    }
}

impl FromValue for u64 {
    ghost use Rattle.gg_partfile.specs.Shapes.{whole};

    ghost reads = { whole };

    fn from_value(_alloc: Global, value: &Value) -> Result<Option<u64>, AllocError> {
        Ok(value.as_u64())
    }
}

impl FromValue for (u64, u64) {
    ghost use Rattle.gg_partfile.specs.Shapes.{ratio};

    ghost reads = { ratio };

    fn from_value(_alloc: Global, value: &Value) -> Result<Option<(u64, u64)>, AllocError> {
        Ok(ratio_of(value))
    }
}

impl FromValue for BridgeEntry {
    ghost use Rattle.gg_partfile.specs.Shapes.{bridge};

    ghost reads = { bridge };

    fn from_value(alloc: Global, value: &Value) -> Result<Option<BridgeEntry>, AllocError> {
        let Some(members) = value.as_object() else {
            return Ok(None);
        };
        if other_member(members, &BRIDGE_KEYS).is_some() {
            return Ok(None);
        }
        let Some(name) = required::<Name>(alloc, value, "name")? else {
            return Ok(None);
        };
        let Some(sees) = required::<Names>(alloc, value, "sees")? else {
            return Ok(None);
        };
        let Some(drives) = required::<Names>(alloc, value, "drives")? else {
            return Ok(None);
        };
        Ok(Some(BridgeEntry { name, sees, drives }))
    }
}

impl FromValue for Names {
    ghost use Rattle.gg_partfile.specs.Shapes.{texts};

    ghost reads = { texts };

    fn from_value(alloc: Global, value: &Value) -> Result<Option<Names>, AllocError> {
        list_of(alloc, value)
    }
}

impl FromValue for Groups {
    ghost use Rattle.gg_partfile.specs.Shapes.{groups};

    ghost reads = { groups };

    fn from_value(alloc: Global, value: &Value) -> Result<Option<Groups>, AllocError> {
        list_of(alloc, value)
    }
}

impl FromValue for Bridges {
    ghost use Rattle.gg_partfile.specs.Shapes.{bridges};

    ghost reads = { bridges };

    fn from_value(alloc: Global, value: &Value) -> Result<Option<Bridges>, AllocError> {
        list_of(alloc, value)
    }
}

impl FromValue for Capacities {
    ghost use Rattle.gg_partfile.specs.Shapes.{numbers};

    ghost reads = { numbers };

    fn from_value(alloc: Global, value: &Value) -> Result<Option<Capacities>, AllocError> {
        named_of(alloc, value)
    }
}

impl FromValue for Clocks {
    ghost use Rattle.gg_partfile.specs.Shapes.{ratios};

    ghost reads = { ratios };

    fn from_value(alloc: Global, value: &Value) -> Result<Option<Clocks>, AllocError> {
        named_of(alloc, value)
    }
}

// The keys of an entry of `bridges`.
static BRIDGE_KEYS: [&str; 3] = ["name", "sees", "drives"];

// A list of exactly two whole numbers.
fn ratio_of(value: &Value) -> Option<(u64, u64)>
    ensures { result ≡ ratio (view value.now) }
{
    let items = value.as_array()?.as_slice();
    if items.len() != 2 {
        return None;
    }
    Some((items[0].as_u64()?, items[1].as_u64()?))
}

// What is read of the value under a key that has to be there.
fn required<T: FromValue>(alloc: Global, value: &Value, key: &str) -> Result<Option<T>, AllocError>
    ensures { IfOk result (λ found. required T.reads key.now (view value.now) ≡ found) }
{
    match value.get(key) {
        Some(held) => T::from_value(alloc, held),
        None => Ok(None),
    }
}
