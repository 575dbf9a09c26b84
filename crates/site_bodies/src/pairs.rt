//! Pairs of whole numbers, as an array of objects gives them.
ghost use Rattle.std.specs.Prelude.{◌≡◌, IfOk, IsErrOf, Some, None, option_and_then, option_map};
ghost use Rattle.serde_json.specs.Data.{Members};
ghost use Rattle.serde_json.specs.Find.{as_array, get};
ghost use Rattle.serde_json.specs.View.{items_view, view};
ghost use Rattle.site_bodies.specs.Members.{body_of};
ghost use Rattle.site_bodies.specs.Pairs.{pair_in, pairs_at, pairs_in};
ghost use Rattle.site_bodies.specs.Values.{whole_in};
ghost use Rattle.site_bodies.specs.declared.fault.BodyFault.TheVariants as fault;

use crate::fault::BodyFault;
use serde_json::Value;
use std::alloc::{AllocError, Global};

// The whole number that a value has under a name.
fn whole_under(value: &Value, name: &str) -> Option<u64>
    ensures { result ≡ whole_in (get name.now (view value.now)) }
{
    match value.get(name) {
        Some(found) => found.as_u64(),
        None => None,
    }
}

// The whole numbers that a value has under two names, if it is an object that has both.
fn pair_of(value: &Value, first: &str, second: &str) -> Option<(u64, u64)>
    ensures { result ≡ pair_in first.now second.now (view value.now) }
{
    let one = whole_under(value, first)?;
    let other = whole_under(value, second)?;
    Some((one, other))
}

// The pairs of all values, if each has one.
fn pairs_of(
    alloc: Global,
    values: &[Value],
    first: &str,
    second: &str,
) -> Result<Option<Vec<(u64, u64)>>, AllocError>
    ensures { IfOk result (λ pairs. option_map (λ v. v.items) pairs
        ≡ pairs_in first.now second.now (items_view values.now)) }
{
    let mut pairs = Vec::new(alloc);
    for value in values {
        let Some(pair) = pair_of(value, first, second) else {
            return Ok(None);
        };
        pairs.push(pair)?;
    }
    Ok(Some(pairs))
}

// The values of the array under a name.
fn values_under<'v>(value: &'v Value, name: &str) -> Option<&'v Vec<Value>>
    ensures { option_map (λ v. items_view v.now.items) result
        ≡ option_and_then as_array (get name.now (view value.now)) }
{
    match value.get(name) {
        Some(found) => found.as_array(),
        None => None,
    }
}

/// The field of a name of the object that the bytes are, if it is an array of objects which each
/// have whole numbers from 0 to 2^64 - 1 under two names. What else these objects have is skipped.
pub fn read_pairs(
    alloc: Global,
    bytes: &[u8],
    name: &str,
    first: &str,
    second: &str,
) -> Result<Option<Vec<(u64, u64)>>, BodyFault>
    ensures pairs { IfOk result (λ pairs. (ms : Members) × (body_of bytes.now ≡ Some ms)
        × (option_map (λ v. v.items) pairs ≡ pairs_at first.now second.now name.now ms)) }
    ensures no_object { IsErrOf result fault.NoObject → body_of bytes.now ≡ None }
{
    let value = match Value::from_slice(alloc, bytes) {
        Ok(value) => value,
        Err(e) => {
            if e.is_memory() {
                return Err(BodyFault::Memory);
            }
            return Err(BodyFault::NoObject);
        }
    };
    if !value.is_object() {
        return Err(BodyFault::NoObject);
    }
    let Some(values) = values_under(&value, name) else {
        return Ok(None);
    };
    match pairs_of(alloc, values, first, second) {
        Ok(pairs) => Ok(pairs),
        Err(_) => Err(BodyFault::Memory),
    }
}
