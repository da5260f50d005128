//! The keys of a partition file.
ghost use Rattle.std.specs.Prelude.{◌≡◌, map, option_map};
ghost use Rattle.serde_json.specs.View.{members_view, view};
ghost use Rattle.gg_partfile.specs.Keys.{is_known, held};
ghost use Rattle.gg_partfile.specs.Shapes.{is_one_of, other_member};

use serde_json::{Map, Value};

// The keys that a partition file may have, in the order of their checks.
pub(crate) static KEYS: [&str; 8] = [
    "units", "share", "memories", "capacity", "direct", "pipe", "clocks", "bridges",
];

// Whether a key is one of these.
fn is_one_of(keys: &[&str], key: &str) -> bool
    ensures { result ≡ is_one_of (map (λ k. k.now) keys.now) key.now }
{
    keys.contains(&key)
}

// The value under a key, if the key is one that a partition file may have.
pub(crate) fn held<'a>(value: &'a Value, key: &str) -> Option<&'a Value>
    ensures { option_map (λ v. view v.now) result ≡ held key.now (view value.now) }
{
    if is_one_of(&KEYS, key) {
        value.get(key)
    } else {
        None
    }
}

// The first key of an object that isn't one of these.
pub(crate) fn other_member<'a>(members: &'a Map<String, Value>, keys: &[&str]) -> Option<&'a str>
    ensures { option_map (λ key. key.now) result ≡ other_member (map (λ k. k.now) keys.now) (members_view members.now.entries) }
{
    for (key, _) in members {
        if !is_one_of(keys, key.as_str()) {
            return Some(key.as_str());
        }
    }
    None
}
