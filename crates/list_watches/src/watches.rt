//! What members watch, by member and item.
ghost use Rattle.std.specs.Prelude.{◌≡◌, ◌==◌, [], ⊤, filter};
ghost use Rattle.std.specs.List.{list_any};
ghost use Rattle.house_rows.specs.History.{counted, put_by};
ghost use Rattle.house_rows.specs.Watches.{is_watch, unwatched, watch_key};
ghost use Rattle.list_rows.specs.Blocks.{IsRising};
ghost use Rattle.list_rows.specs.Makes.{Makes};

use house_rows::KeepFault;
use list_rows::{RowKey, WatchEntry, block, cut, put, row};
use std::alloc::Global;
use std::marker::Model;

/// What members watch. Clauses see the list of it, by member and item.
#[derive(Drop)]
pub struct Watches {
    // Block n has what member n watches.
    blocks: Vec<Vec<WatchEntry>>,
}

impl Model for Watches {
    ghost use Rattle.std.specs.Prelude.{List};
    ghost use Rattle.house_rows.specs.Watches.{WatchRow, watch_key};
    ghost use Rattle.list_rows.specs.Blocks.{IsBlocked, rows_of};

    ghost Value = { List WatchRow };

    ghost view = { λ w. rows_of w.blocks.items };

    ghost invariant = { λ w. IsBlocked watch_key w.blocks.items };
}

impl Watches {
    /// The table of nobody's watches.
    pub fn new(alloc: Global) -> Watches
        ensures { result ≡ [] }
    {
        Watches {
            blocks: Vec::new(alloc),
        }
    }

    /// Whether a member watches an item.
    pub fn is_watched(&self, member: u64, item: u64) -> bool
        ensures { result ≡ list_any (is_watch member item) self.now }
    {
        row(&self.blocks, RowKey::new(member, item, 0)).is_some()
    }

    /// How many items a member watches.
    pub fn count(&self, member: u64) -> u64
        ensures { result ≡ counted (λ w. w.member == member) self.now }
    {
        self.of(member).len() as u64
    }

    /// What a member watches, by item.
    pub fn of(&self, member: u64) -> &[WatchEntry]
        ensures rows { result.now ≡ filter (λ w. w.member == member) self.now }
        ensures rising { IsRising watch_key result.now }
    {
        block(&self.blocks, member)
    }

    /// A member watches an item, if it doesn't yet.
    pub fn watch(&mut self, alloc: Global, member: u32, item: u32) -> Result<(), KeepFault>
        ensures { Makes result self.old self.new
            (put_by watch_key (record { member = member; item = item }) (unwatched member item self.old)) ⊤ }
    {
        // A watch that is there already would be put where it is.
        if self.is_watched(u64::from(member), u64::from(item)) {
            return Ok(());
        }
        put(alloc, &mut self.blocks, WatchEntry { member, item })
    }

    /// A member watches an item no longer.
    pub fn unwatch(&mut self, member: u32, item: u32)
        ensures { self.new ≡ unwatched member item self.old }
    {
        cut(
            &mut self.blocks,
            RowKey::new(u64::from(member), u64::from(item), 0),
        );
    }
}
