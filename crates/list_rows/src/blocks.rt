//! Rows in blocks: block n has the rows whose key begins with n, in the strict order of their keys.
ghost use Rattle.std.specs.Prelude.{◌≡◌, ◌<◌, ◌==◌, if◌then◌else◌, not, false, filter, find, map, OnOk, IfErr, vec_len};
ghost use Rattle.std.specs.List.{list_any};
ghost use Rattle.std.specs.Option.{option_copied};
ghost use Rattle.house_rows.specs.History.{put_by};
ghost use Rattle.house_rows.specs.declared.fault.KeepFault.TheVariants as fault;
ghost use Rattle.list_rows.specs.Blocks.{IsBlocked, rows_of, same_key};
ghost use Rattle.list_rows.specs.Makes.{Makes};

use crate::keyed::{Keyed, RowKey};
use crate::places::search;
use house_rows::KeepFault;
use std::alloc::Global;

/// A change of a row.
pub trait Changes<R> {
    /// The row that it makes of a row.
    ghost changed: { Self → R → R };

    /// Changes a row.
    fn change(self, row: &mut R)
        ensures { row.new ≡ changed self row.old };
}

/// The rows whose key begins with a number.
pub fn block<R: Keyed>(blocks: &[Vec<R>], number: u64) -> &[R]
    requires { IsBlocked R.key blocks.now }
    ensures { result.now ≡ filter (λ row. (R.key row).first == number) (rows_of blocks.now) }
{
    let number = number as usize;
    if number >= blocks.len() {
        return &[];
    }
    &blocks[number]
}

/// The row of that key.
pub fn row<R: Keyed>(blocks: &[Vec<R>], wanted: RowKey) -> Option<&R>
    requires { IsBlocked R.key blocks.now }
    ensures { option_copied result ≡ find (λ row. same_key (R.key row) wanted) (rows_of blocks.now) }
{
    let block = block(blocks, wanted.first());
    match search(block, wanted) {
        Ok(place) => Some(&block[place]),
        Err(_) => None,
    }
}

/// Puts a row in its place. Damaged comes exactly where its key is taken, and then no memory is asked for.
pub fn put<R: Keyed + Drop>(
    alloc: Global,
    blocks: &mut Vec<Vec<R>>,
    row: R,
) -> Result<(), KeepFault>
    requires { IsBlocked R.key blocks.old.items }
    ensures made { Makes result (rows_of blocks.old.items) (rows_of blocks.new.items) (put_by R.key row (rows_of blocks.old.items))
        (list_any (λ other. same_key (R.key other) (R.key row)) (rows_of blocks.old.items) ≡ false) }
    ensures blocked { IsBlocked R.key blocks.new.items }
{
    let key = row.row_key();
    // The look-up comes first: where the key is taken, no memory is asked for.
    let Err(place) = search(block(blocks, key.first()), key) else {
        return Err(KeepFault::Damaged);
    };
    let number = key.first() as usize;
    let Ok(()) = grow(alloc, blocks, number) else {
        return Err(KeepFault::Memory);
    };
    let Ok(()) = blocks[number].insert(place, row) else {
        return Err(KeepFault::Memory);
    };
    Ok(())
}

// Adds empty blocks until there is one of that number.
fn grow<R: Keyed + Drop>(
    alloc: Global,
    blocks: &mut Vec<Vec<R>>,
    number: usize,
) -> Result<(), KeepFault>
    requires { IsBlocked R.key blocks.old.items }
    ensures rows { rows_of blocks.new.items ≡ rows_of blocks.old.items }
    ensures blocked { IsBlocked R.key blocks.new.items }
    ensures there { OnOk result (number < vec_len blocks.new) }
    ensures memory { IfErr result (λ e. e ≡ fault.Memory) }
{
    while blocks.len() <= number {
        let Ok(()) = blocks.push(Vec::new(alloc)) else {
            return Err(KeepFault::Memory);
        };
    }
    Ok(())
}

/// Takes the row of that key away, if it is there.
pub fn cut<R: Keyed + Drop>(blocks: &mut Vec<Vec<R>>, wanted: RowKey)
    requires { IsBlocked R.key blocks.old.items }
    ensures rows { rows_of blocks.new.items ≡ filter (λ row. not (same_key (R.key row) wanted)) (rows_of blocks.old.items) }
    ensures blocked { IsBlocked R.key blocks.new.items }
{
    let number = wanted.first() as usize;
    if number >= blocks.len() {
        return;
    }
    let block = &mut blocks[number];
    if let Ok(place) = search(block, wanted) {
        let _row = block.remove(place);
    }
}

/// Changes the row of that key, if it is there.
pub fn update<R: Keyed, C: Changes<R> + Drop>(blocks: &mut Vec<Vec<R>>, wanted: RowKey, change: C)
    requires blocked { IsBlocked R.key blocks.old.items }
    requires keeps { (row : R) → R.key (C.changed change row) ≡ R.key row }
    ensures rows { rows_of blocks.new.items
        ≡ map (λ row. if same_key (R.key row) wanted then C.changed change row else row)
        (rows_of blocks.old.items) }
    ensures blocked { IsBlocked R.key blocks.new.items }
{
    let number = wanted.first() as usize;
    if number >= blocks.len() {
        return;
    }
    let block = &mut blocks[number];
    if let Ok(place) = search(block, wanted) {
        change.change(&mut block[place]);
    }
}
