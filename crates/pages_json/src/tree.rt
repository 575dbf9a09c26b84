//! Objects and lists as trees in memory.
ghost use Rattle.std.specs.Prelude.{◌≡◌, ◌∷◌, ◌++◌, ℕ, [], IfOk, IsTrue, OnErr, OnOk, map, take};
ghost use Rattle.serde_json.specs.View.{members_view, view};
ghost use Rattle.pages_json.specs.Fields.{are_keys, field_tree, member_of};
ghost use Rattle.pages_json.specs.Words.{AreInOrder, array_of, is_key, name_in, object_of, put_all};

use crate::entry::Shows;
use crate::field::Field;
use serde_json::{Map, Value, put};
use std::alloc::{AllocError, Global};

/// A way to show entries as trees too.
pub trait Grows<E>: Shows<E> {
    ghost use Rattle.serde_json.specs.View.{view};

    /// Makes the tree of an entry.
    fn grow(&self, alloc: Global, entry: &E) -> Result<Value, AllocError>
        ensures { IfOk result (λ v. view v ≡ Self.tree self.now entry.now) };
}

// The tree of one value.
fn grow_value(alloc: Global, field: &Field<'_>) -> Result<Value, AllocError>
    ensures { IfOk result (λ v. view v ≡ field_tree field.now) }
{
    Ok(match field {
        Field::Number(n) | Field::Maybe(Some(n)) => Value::from(*n),
        Field::Maybe(None) | Field::MaybeText(None) | Field::MaybeFlag(None) => Value::Null,
        Field::Text(text) | Field::MaybeText(Some(text)) => Value::try_from_str(alloc, text)?,
        Field::Integer(z) => Value::from(*z),
        Field::Flag(holds) | Field::MaybeFlag(Some(holds)) => Value::from(*holds),
    })
}

// The name in a key.
fn name_in(key: &str) -> &str
    requires { IsTrue (is_key key.now) }
    ensures { result.now ≡ name_in key.now }
{
    &key[2..key.len() - 2]
}

/// Puts these members into a map, one after the other. After an `Err` those before one of them are
/// put, and nothing else has changed.
pub fn grow_members(
    alloc: Global,
    members: &mut Map<String, Value>,
    fields: &[(&str, Field<'_>)],
) -> Result<(), AllocError>
    requires { IsTrue (are_keys fields.now) }
    ensures ok { OnOk result (members_view members.new.entries
        ≡ put_all (map member_of fields.now) (members_view members.old.entries)) }
    ensures err { OnErr result ((place : ℕ)
        × (members_view members.new.entries
        ≡ put_all (map member_of (take place fields.now)) (members_view members.old.entries))) }
{
    for field in fields {
        let value = grow_value(alloc, &field.1)?;
        put(members, alloc, name_in(field.0), value)?;
    }
    Ok(())
}

/// Puts a member that is a list into a map. After an `Err` the map is as it was.
pub fn grow_member_list<E, F: Grows<E>>(
    alloc: Global,
    members: &mut Map<String, Value>,
    name: &str,
    form: &F,
    entries: &[E],
) -> Result<(), AllocError>
    ensures ok { OnOk result (members_view members.new.entries
        ≡ put_all ((name.now, array_of (F.tree form.now) entries.now) ∷ [])
        (members_view members.old.entries)) }
    ensures err { OnErr result (members.new.entries ≡ members.old.entries) }
{
    let list = grow_array(alloc, form, entries)?;
    put(members, alloc, name, list)
}

/// Makes a list.
pub fn grow_array<E, F: Grows<E>>(
    alloc: Global,
    form: &F,
    entries: &[E],
) -> Result<Value, AllocError>
    ensures { IfOk result (λ v. view v ≡ array_of (F.tree form.now) entries.now) }
{
    let mut trees = Vec::new(alloc);
    for entry in entries {
        let tree = form.grow(alloc, entry)?;
        trees.push(tree)?;
    }
    Ok(Value::Array(trees))
}

/// Makes an object of these keys, which are in byte order.
pub fn grow_object(alloc: Global, fields: &[(&str, Field<'_>)]) -> Result<Value, AllocError>
    requires keys { IsTrue (are_keys fields.now) }
    requires order { AreInOrder (map member_of fields.now) }
    ensures { IfOk result (λ v. view v ≡ object_of (map member_of fields.now)) }
{
    let mut members = Map::new(alloc);
    grow_members(alloc, &mut members, fields)?;
    Ok(Value::Object(members))
}

/// Makes an object with one key, which has a list.
pub fn grow_list<E, F: Grows<E>>(
    alloc: Global,
    name: &str,
    form: &F,
    entries: &[E],
) -> Result<Value, AllocError>
    ensures { IfOk result (λ v. view v
        ≡ object_of ((name.now, array_of (F.tree form.now) entries.now) ∷ [])) }
{
    let mut members = Map::new(alloc);
    grow_member_list(alloc, &mut members, name, form, entries)?;
    Ok(Value::Object(members))
}

/// Makes an object of the keys `front`, then one that has a list, then the keys `back`, which stand
/// in byte order.
pub fn grow_object_around<E, F: Grows<E>>(
    alloc: Global,
    front: &[(&str, Field<'_>)],
    name: &str,
    form: &F,
    entries: &[E],
    back: &[(&str, Field<'_>)],
) -> Result<Value, AllocError>
    requires front { IsTrue (are_keys front.now) }
    requires back { IsTrue (are_keys back.now) }
    requires order { AreInOrder (map member_of front.now
        ++ ((name.now, array_of (F.tree form.now) entries.now) ∷ [] ++ map member_of back.now)) }
    ensures { IfOk result (λ v. view v ≡ object_of (map member_of front.now
        ++ ((name.now, array_of (F.tree form.now) entries.now) ∷ [] ++ map member_of back.now))) }
{
    let mut members = Map::new(alloc);
    grow_members(alloc, &mut members, front)?;
    grow_member_list(alloc, &mut members, name, form, entries)?;
    grow_members(alloc, &mut members, back)?;
    Ok(Value::Object(members))
}
