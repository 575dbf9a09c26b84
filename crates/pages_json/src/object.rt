//! Objects, a key at a time. The keys of every object here are given in byte order.
//!
//! Each member and each entry is written after a comma. In the end the opening bracket takes the
//! place of the first comma.
ghost use Rattle.std.specs.Prelude.{◌≡◌, ◌++◌, ◌∷◌, ◌≤◌, [], IsTrue, OnOk, drop, length, map, take};
ghost use Rattle.std.specs.Io.{StartsWith};
ghost use Rattle.pages_json.specs.Fields.{are_keys, field_tree, member_of};
ghost use Rattle.pages_json.specs.Words.{array_of, enclosed, is_key, members_text, name_in, object_of, text_of};

use crate::entry::{Shows, put_array};
use crate::field::{Field, put_value};
use std::alloc::{AllocError, Global};

/// A key as it is written in a text: after its comma, between quotes, and with its colon.
#[macro_export]
macro_rules! key {
    ($name:literal) => {
        concat!(",\"", $name, "\":")
    };
}

// Puts the text from a place on between brackets. The first takes the place of the first byte.
#[tactic(auto, using(crate::proofs::Texts::enclosed_none, crate::proofs::Texts::enclosed_some))]
pub(crate) fn enclose(
    out: &mut Vec<u8>,
    start: usize,
    first: u8,
    last: u8,
) -> Result<(), AllocError>
    requires { start ≤ length out.old.items }
    ensures text { OnOk result (out.new.items
        ≡ take start out.old.items ++ enclosed first last (drop start out.old.items)) }
    ensures front { take start out.new.items ≡ take start out.old.items }
{
    if start == out.len() {
        out.push(first)?;
        out.push(last)?;
        return Ok(());
    }
    out[start] = first;
    out.push(last)?;
    Ok(())
}

/// Makes an object of the members that were written from a place on. After an `Err` they may be
/// there in part.
pub fn end_object(out: &mut Vec<u8>, start: usize) -> Result<(), AllocError>
    requires { start ≤ length out.old.items }
    ensures text { OnOk result (out.new.items
        ≡ take start out.old.items ++ enclosed 123 125 (drop start out.old.items)) }
    ensures front { take start out.new.items ≡ take start out.old.items }
{
    enclose(out, start, b'{', b'}')
}

/// Appends members of an object, each after a comma. After an `Err` a part of them may be there.
pub fn put_members(
    alloc: Global,
    out: &mut Vec<u8>,
    fields: &[(&str, Field<'_>)],
) -> Result<(), AllocError>
    requires { IsTrue (are_keys fields.now) }
    ensures text { OnOk result
        (out.new.items ≡ out.old.items ++ members_text (map member_of fields.now)) }
    ensures front { StartsWith out.new.items out.old.items }
{
    for field in fields {
        out.extend_from_slice(field.0.as_bytes())?;
        put_value(alloc, out, &field.1)?;
    }
    Ok(())
}

/// Appends a member of an object, after a comma. After an `Err` a part of it may be there. Where the
/// key and the kind of the value are constants, nothing is asked of them while it runs.
#[inline(always)]
#[tactic(auto, using(crate::proofs::Texts::one_member, crate::proofs::Texts::front_then))]
pub fn put_member(
    alloc: Global,
    out: &mut Vec<u8>,
    key: &str,
    value: Field<'_>,
) -> Result<(), AllocError>
    requires { IsTrue (is_key key.now) }
    ensures text { OnOk result (out.new.items ≡ out.old.items
        ++ members_text ((name_in key.now, field_tree value.entry) ∷ [])) }
    ensures front { StartsWith out.new.items out.old.items }
{
    out.extend_from_slice(key.as_bytes())?;
    put_value(alloc, out, &value)?;
    Ok(())
}

/// Appends a member of an object that is a list, after a comma. After an `Err` a part of it may
/// be there.
#[tactic(auto, using(crate::proofs::Texts::one_member, crate::proofs::Texts::front_then))]
pub fn put_member_list<E, F: Shows<E>>(
    alloc: Global,
    out: &mut Vec<u8>,
    key: &str,
    form: &F,
    entries: &[E],
) -> Result<(), AllocError>
    requires { IsTrue (is_key key.now) }
    ensures text { OnOk result (out.new.items ≡ out.old.items
        ++ members_text ((name_in key.now, array_of (F.tree form.now) entries.now) ∷ [])) }
    ensures front { StartsWith out.new.items out.old.items }
{
    out.extend_from_slice(key.as_bytes())?;
    put_array(alloc, out, form, entries)?;
    Ok(())
}

/// Appends an object of these keys. After an `Err` a part of it may be there.
#[tactic(auto, using(crate::proofs::Texts::object_enclosed, crate::proofs::Texts::front_then))]
pub fn put_object(
    alloc: Global,
    out: &mut Vec<u8>,
    fields: &[(&str, Field<'_>)],
) -> Result<(), AllocError>
    requires { IsTrue (are_keys fields.now) }
    ensures text { OnOk result
        (out.new.items ≡ out.old.items ++ text_of (object_of (map member_of fields.now))) }
    ensures front { StartsWith out.new.items out.old.items }
{
    let start = out.len();
    put_members(alloc, out, fields)?;
    end_object(out, start)?;
    Ok(())
}

/// Appends an object with one key, which has a list. After an `Err` a part of it may be there.
#[tactic(auto, using(crate::proofs::Texts::object_enclosed, crate::proofs::Texts::front_then))]
pub fn put_list<E, F: Shows<E>>(
    alloc: Global,
    out: &mut Vec<u8>,
    key: &str,
    form: &F,
    entries: &[E],
) -> Result<(), AllocError>
    requires { IsTrue (is_key key.now) }
    ensures text { OnOk result (out.new.items ≡ out.old.items
        ++ text_of (object_of ((name_in key.now, array_of (F.tree form.now) entries.now) ∷ []))) }
    ensures front { StartsWith out.new.items out.old.items }
{
    let start = out.len();
    put_member_list(alloc, out, key, form, entries)?;
    end_object(out, start)?;
    Ok(())
}

/// Appends an object of the keys `front`, then one that has a list, then the keys `back`. After an
/// `Err` a part of it may be there.
#[tactic(auto, using(crate::proofs::Texts::three_parts, crate::proofs::Texts::front_then))]
pub fn put_object_around<E, F: Shows<E>>(
    alloc: Global,
    out: &mut Vec<u8>,
    front: &[(&str, Field<'_>)],
    key: &str,
    form: &F,
    entries: &[E],
    back: &[(&str, Field<'_>)],
) -> Result<(), AllocError>
    requires front { IsTrue (are_keys front.now) }
    requires key { IsTrue (is_key key.now) }
    requires back { IsTrue (are_keys back.now) }
    ensures text { OnOk result (out.new.items ≡ out.old.items ++ text_of (object_of
        (map member_of front.now ++ ((name_in key.now, array_of (F.tree form.now) entries.now) ∷ []
        ++ map member_of back.now)))) }
    ensures front { StartsWith out.new.items out.old.items }
{
    let start = out.len();
    put_members(alloc, out, front)?;
    put_member_list(alloc, out, key, form, entries)?;
    put_members(alloc, out, back)?;
    end_object(out, start)?;
    Ok(())
}
