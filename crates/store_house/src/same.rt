//! Whether two schemas are the same, as far as schemas without checks and computed defaults go.
ghost use Rattle.std.specs.Prelude.{◌≡◌, ◌↔◌, [], IsTrue};
ghost use Rattle.std.specs.List.{AllByRecursion};
ghost use Rattle.store_house.specs.Plain.{IsPlainColumn, IsPlainSchema, IsPlainTable, no_stamps};

use sqlite_items::Items;
use sqlite_schema::code::Terms;
use sqlite_schema::schema::{Column, Index, Reference, Schema, Stamps, Table};
use sqlite_value::keys::Order;
use sqlite_value::value::{Bytes, Value};

/// What can be compared. The answer may be false of two that are the same, where the first isn't plain.
pub trait Same {
    /// What is seen to be the same as itself.
    ghost is_plain: { Self → Type 0 } = { λ _. Unit {0} };

    /// Whether both are seen to be the same.
    fn is_same(&self, other: &Self) -> bool
        ensures sound { IsTrue result → self.now ≡ other.now }
        ensures whole { is_plain self.now → self.now ≡ other.now → IsTrue result };
}

impl Same for usize {
    fn is_same(&self, other: &usize) -> bool {
        *self == *other
    }
}

impl Same for Order {
    fn is_same(&self, other: &Order) -> bool {
        self.digits == other.digits
    }
}

impl Same for Bytes {
    fn is_same(&self, other: &Bytes) -> bool {
        self.as_slice() == other.as_slice()
    }
}

// Whether two lists are the same, one after the other.
fn all_same<T: Same>(these: &[T], those: &[T]) -> bool
    ensures sound { IsTrue result → these.now ≡ those.now }
    ensures whole { AllByRecursion T.is_plain these.now → these.now ≡ those.now → IsTrue result }
{
    if these.len() != those.len() {
        return false;
    }
    for (this, that) in these.iter().zip(those) {
        if !this.is_same(that) {
            return false;
        }
    }
    true
}

impl<T: Same> Same for Items<T> {
    ghost is_plain = { AllByRecursion T.is_plain };

    fn is_same(&self, other: &Items<T>) -> bool {
        all_same(self.as_slice(), other.as_slice())
    }
}

// A value of a column that has no default.
fn is_null(value: &Value) -> bool
    ensures { IsTrue result ↔ (value.now ≡ Value.Null) }
{
    matches!(value, Value::Null)
}

impl Same for Column {
    ghost is_plain = { IsPlainColumn };

    fn is_same(&self, other: &Column) -> bool {
        self.name.is_same(&other.name)
            && self.kind == other.kind
            && self.is_strict == other.is_strict
            && self.not_null == other.not_null
            && is_null(&self.default)
            && is_null(&other.default)
            && self.collation == other.collation
    }
}

impl Same for Reference {
    fn is_same(&self, other: &Reference) -> bool {
        self.columns.is_same(&other.columns)
            && self.parent.is_same(&other.parent)
            && self.parent_columns.is_same(&other.parent_columns)
            && self.on_delete == other.on_delete
            && self.on_update == other.on_update
            && self.is_deferred == other.is_deferred
    }
}

impl Same for Index {
    fn is_same(&self, other: &Index) -> bool {
        self.name.is_same(&other.name)
            && self.tree == other.tree
            && self.table == other.table
            && self.columns.is_same(&other.columns)
            && self.order.is_same(&other.order)
            && self.is_unique == other.is_unique
    }
}

// Whether there is no expression.
fn is_none(terms: &Terms) -> bool
    ensures { IsTrue result ↔ (terms.now ≡ []) }
{
    terms.roots.is_empty()
}

// Whether no default reads the time.
fn is_unstamped(stamps: &Stamps) -> bool
    ensures { IsTrue result ↔ (stamps.now ≡ no_stamps) }
{
    stamps.places.is_empty() && is_none(&stamps.terms) && stamps.formats.is_empty()
}

// Whether a table has no checks and no defaults but values.
fn is_simple(table: &Table) -> bool
    ensures { IsTrue result ↔ ((table.now.checks ≡ []) × (table.now.computed ≡ [])
        × (table.now.stamps ≡ no_stamps)) }
{
    is_none(&table.checks) && table.computed.is_empty() && is_unstamped(&table.stamps)
}

// Whether the keys of two tables are the same.
fn have_same_keys(this: &Table, that: &Table) -> bool
    ensures { IsTrue result ↔ ((this.now.key ≡ that.now.key)
        × (this.now.primary ≡ that.now.primary) × (this.now.uniques ≡ that.now.uniques)
        × (this.now.orders ≡ that.now.orders) × (this.now.references ≡ that.now.references)) }
{
    this.key == that.key
        && this.primary.is_same(&that.primary)
        && this.uniques.is_same(&that.uniques)
        && this.orders.is_same(&that.orders)
        && this.references.is_same(&that.references)
}

impl Same for Table {
    ghost is_plain = { IsPlainTable };

    fn is_same(&self, other: &Table) -> bool {
        self.name.is_same(&other.name)
            && self.tree == other.tree
            && self.columns.is_same(&other.columns)
            && have_same_keys(self, other)
            && self.is_counted == other.is_counted
            && is_simple(self)
            && is_simple(other)
    }
}

/// Whether two schemas without views are the same. It is false of schemas with checks, or with defaults.
pub fn is_same_schema(this: &Schema, that: &Schema) -> bool
    ensures sound { IsTrue result → this.now ≡ that.now }
    ensures whole { IsPlainSchema this.now → this.now ≡ that.now → IsTrue result }
{
    this.tables.is_same(&that.tables)
        && this.indexes.is_same(&that.indexes)
        && this.views.is_empty()
        && that.views.is_empty()
}
