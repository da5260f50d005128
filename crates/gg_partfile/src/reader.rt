//! The reader of partition files.
ghost use Rattle.std.specs.Prelude.{◌≡◌, [], false, true, Some, IfOk, IfErr, is_some, length};
ghost use Rattle.serde_json.specs.View.{view};
ghost use Rattle.gg_partfile.specs.Fault.{IfKey, wrong_key, IsRefused};
ghost use Rattle.gg_partfile.specs.Keys.{has_shape, held, under};
ghost use Rattle.gg_partfile.specs.Partition.{Asks, IsPartition};
ghost use Rattle.gg_partfile.specs.Request.{no_request};
ghost use Rattle.gg_partfile.specs.Size.{HasAtMost};

use crate::fault::PartFault;
use crate::keys::{KEYS, held, other_member};
use crate::request::Request;
use crate::shapes::FromValue;
use gg_bits::{Items, Name};
use serde_json::Value;
use std::alloc::Global;

/// The request that the bytes of a partition file hold. It has at most as many entries of each kind as the file has
/// bytes.
///
/// # Errors
///
/// Returns `WrongKey` exactly if the bytes hold no request. Returns `NoMemory` if an allocation fails.
///
/// # Examples
///
/// ```rust
/// let request = read_partition(alloc, b"{\"units\": [\"a\", \"b\"], \"share\": [[\"a\", \"b\"]]}")?;
/// // `request.units` has `a` and `b`, and `request.share` has one list, of both. The other keys are absent, so their
/// // lists are empty, and `request.direct` is false.
/// ```
///
/// For `{"units": "a", "zone": 0}` the result is `WrongKey` with `units`: a wrong shape comes before an unknown key.
pub fn read_partition(alloc: Global, bytes: &[u8]) -> Result<Request, PartFault>
    ensures request { IfOk result (IsPartition bytes.now) }
    ensures entries { IfOk result (HasAtMost (length bytes.now)) }
    ensures wrong { IfErr result (IfKey (IsRefused bytes.now)) }
{
    match Value::from_slice(alloc, bytes) {
        Ok(value) => request_of(alloc, &value),
        Err(error) if error.is_memory() => Err(PartFault::NoMemory),
        Err(_) => Err(fault_of(alloc, "-")),
    }
}

// The fault of a key.
fn fault_of(alloc: Global, key: &str) -> PartFault
    ensures { IfKey (λ told. told ≡ key.now) result }
{
    match Name::from_str(alloc, key) {
        Ok(name) => PartFault::WrongKey(name),
        Err(_) => PartFault::NoMemory,
    }
}

// The request that a value holds.
fn request_of(alloc: Global, value: &Value) -> Result<Request, PartFault>
    ensures asks { IfOk result (Asks (view value.now)) }
    ensures wrong { IfErr result (IfKey (λ key. wrong_key (view value.now) ≡ Some key)) }
{
    let mut request = Request {
        units: none(alloc),
        share: none(alloc),
        memories: none(alloc),
        capacity: none(alloc),
        direct: false,
        pipe: none(alloc),
        clocks: none(alloc),
        bridges: none(alloc),
    };
    match fill(alloc, value, &mut request) {
        Ok(()) => Ok(request),
        Err(fault) => {
            drop(request);
            Err(fault)
        }
    }
}

// An empty list.
fn none<T: Drop>(alloc: Global) -> Items<T>
    ensures { result ≡ [] }
{
    Items::from(Vec::new(alloc))
}

// Fills an empty request with what a value holds.
fn fill(alloc: Global, value: &Value, request: &mut Request) -> Result<(), PartFault>
    requires { request.old ≡ no_request }
    ensures asks { IfOk result (λ _. Asks (view value.now) request.new) }
    ensures wrong { IfErr result (IfKey (λ key. wrong_key (view value.now) ≡ Some key)) }
{
    let Some(members) = value.as_object() else {
        return Err(fault_of(alloc, "-"));
    };
    put_under(alloc, value, "units", &mut request.units)?;
    put_under(alloc, value, "share", &mut request.share)?;
    put_under(alloc, value, "memories", &mut request.memories)?;
    put_under(alloc, value, "capacity", &mut request.capacity)?;
    put_under(alloc, value, "direct", &mut request.direct)?;
    put_under(alloc, value, "pipe", &mut request.pipe)?;
    put_under(alloc, value, "clocks", &mut request.clocks)?;
    put_under(alloc, value, "bridges", &mut request.bridges)?;
    match other_member(members, &KEYS) {
        Some(key) => Err(fault_of(alloc, key)),
        None => Ok(()),
    }
}

// Puts what is read of the value under a key into a place, which stays as it is if the key is absent.
fn put_under<T: FromValue>(
    alloc: Global,
    value: &Value,
    key: &str,
    place: &mut T,
) -> Result<(), PartFault>
    ensures is { IfOk result (λ _. under place.old T.reads key.now (view value.now) ≡ Some place.new) }
    ensures fits { IfOk result (λ _. has_shape (λ d. is_some (T.reads d)) (held key.now (view value.now)) ≡ true) }
    ensures wrong { IfErr result (IfKey (λ told. (told ≡ key.now) × (has_shape (λ d. is_some (T.reads d)) (held key.now (view value.now)) ≡ false))) }
{
    let Some(held) = held(value, key) else {
        return Ok(());
    };
    match T::from_value(alloc, held)? {
        Some(found) => {
            *place = found;
            Ok(())
        }
        None => Err(fault_of(alloc, key)),
    }
}
