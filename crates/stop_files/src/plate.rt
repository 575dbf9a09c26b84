//! A file in memory that stops at a call.
ghost use Rattle.std.specs.Prelude.{◌≡◌, ◌<◌, ◌≤◌, ◌+◌, ◌^◌, ◌↔◌, ◌⊎◌, ◌++◌, length, take, drop};
ghost use Rattle.std.specs.Prelude.{slice_index_or, true, IfOk, OnOk, OnErr, IsErr};
ghost use Rattle.sqlite_disk.specs.Disk.{Torn};
ghost use Rattle.sqlite_disk.specs.Events.{agrees, overlaid, padded};
ghost use Rattle.stop_files.specs.Left.{IsLeft, IsTorn, byte_left};

use std::alloc::{AllocError, Global};
use std::io;

// SQLite's sector: a device that finishes what it begins finishes so many bytes.
const SECTOR: usize = 512;

// What may be where nothing was written before.
const JUNK: u8 = 0xA5;

const MAX_OFFSET: usize = (1 << 63) - 1;

/// What a stop may lose of what was written and not synced.
#[derive(Clone, Copy)]
pub enum Loss {
    /// Nothing, as where the process alone is killed.
    Nothing,
    /// All of it.
    All,
    /// The sectors whose number is even.
    Even,
    /// The sectors whose number is odd.
    Odd,
}

/// A file in memory, which stops at a call.
#[derive(Drop)]
pub struct Plate {
    seen: Vec<u8>,
    synced: Vec<u8>,
    // The calls that are answered before one is refused.
    left: u64,
    stopped: bool,
}

impl Plate {
    ghost use Rattle.stop_files.specs.Plate.{IsFresh, KeepsBytes, Spends, calls_left, has_stopped, seen_on, synced_on};

    /// A file that holds bytes, all of them synced. It doesn't stop.
    pub fn holding(alloc: Global, bytes: &[u8]) -> Result<Plate, AllocError>
        ensures { IfOk result (IsFresh bytes.now) }
    {
        Ok(Plate {
            seen: Vec::from_slice(alloc, bytes)?,
            synced: Vec::from_slice(alloc, bytes)?,
            left: u64::MAX,
            stopped: false,
        })
    }

    /// From now on so many calls are answered, and each after them is refused.
    pub fn stop_after(&mut self, calls: u64)
        ensures left { calls_left self.new ≡ calls }
        ensures stopped { has_stopped self.new ≡ has_stopped self.old }
        ensures bytes { KeepsBytes self.old self.new }
    {
        self.left = calls;
    }

    /// Whether a call was refused.
    pub fn has_stopped(&self) -> bool
        ensures { result ≡ has_stopped self.now }
    {
        self.stopped
    }

    /// What the file may hold when the machine comes back.
    pub fn after(&self, alloc: Global, loss: Loss) -> Result<Vec<u8>, AllocError>
        ensures { IfOk result (λ v. IsLeft loss (seen_on self.now) (synced_on self.now) v.items) }
    {
        match loss {
            Loss::Nothing => Vec::from_slice(alloc, &self.seen),
            Loss::All => Vec::from_slice(alloc, &self.synced),
            Loss::Even => torn(alloc, &self.seen, &self.synced, 0),
            Loss::Odd => torn(alloc, &self.seen, &self.synced, 1),
        }
    }

    // One call more, if it is answered.
    fn spend(&mut self) -> io::Result<()>
        ensures refused { IsErr result ↔ (calls_left self.old ≡ 0) }
        ensures spends { Spends self.old self.new }
        ensures bytes { KeepsBytes self.old self.new }
    {
        if self.left == 0 {
            self.stopped = true;
            return Err(io::Error::other("the file has stopped"));
        }
        self.left -= 1;
        Ok(())
    }

    /// How many bytes a read finds.
    pub(crate) fn measure(&mut self) -> io::Result<usize>
        ensures value { IfOk result (λ n. n ≡ length (seen_on self.old)) }
        ensures refused { IsErr result ↔ (calls_left self.old ≡ 0) }
        ensures spends { Spends self.old self.new }
        ensures bytes { KeepsBytes self.old self.new }
    {
        self.spend()?;
        Ok(self.seen.len())
    }

    /// Reads what is there at an offset, up to the length of the buffer.
    pub(crate) fn read(&mut self, at: usize, buf: &mut [u8]) -> io::Result<usize>
        ensures count { IfOk result (λ n. (0 < n) × (n ≤ length buf.old) × (at < 2 ^ 63)) }
        ensures value { IfOk result (λ n. agrees (seen_on self.old) at (take n buf.new) ≡ true) }
        ensures refused { calls_left self.old ≡ 0 → IsErr result }
        ensures spends { Spends self.old self.new }
        ensures bytes { KeepsBytes self.old self.new }
    {
        self.spend()?;
        if at > MAX_OFFSET || at >= self.seen.len() || buf.is_empty() {
            return Err(io::ErrorKind::UnexpectedEof.into());
        }
        let count = buf.len().min(self.seen.len() - at);
        buf[..count].copy_from_slice(&self.seen[at..at + count]);
        Ok(count)
    }

    /// Writes bytes at an offset. The call at which the file stops writes the first half of them.
    pub(crate) fn write(&mut self, at: usize, bytes: &[u8]) -> io::Result<usize>
        ensures count { IfOk result (λ n. (n ≡ length bytes.now) × (0 < n) × (at < 2 ^ 63)) }
        ensures written { OnOk result (seen_on self.new ≡ overlaid (seen_on self.old) at bytes.now) }
        ensures torn { Torn at (length bytes.now) (seen_on self.old) (seen_on self.new) }
        ensures synced { synced_on self.new ≡ synced_on self.old }
        ensures refused { calls_left self.old ≡ 0 → IsErr result }
        ensures spends { Spends self.old self.new }
    {
        let first = !self.stopped;
        match self.spend() {
            Ok(()) if bytes.is_empty() => Err(io::ErrorKind::InvalidInput.into()),
            Ok(()) => {
                put(&mut self.seen, at, bytes)?;
                Ok(bytes.len())
            }
            Err(error) => {
                if first {
                    put(&mut self.seen, at, &bytes[..bytes.len() / 2])?;
                }
                Err(error)
            }
        }
    }

    /// Cuts the file, or fills it up with zeros.
    pub(crate) fn resize(&mut self, len: usize) -> io::Result<()>
        ensures cut { OnOk result (seen_on self.new ≡ padded (seen_on self.old) len) }
        ensures err { OnErr result (seen_on self.new ≡ seen_on self.old) }
        ensures synced { synced_on self.new ≡ synced_on self.old }
        ensures refused { calls_left self.old ≡ 0 → IsErr result }
        ensures spends { Spends self.old self.new }
    {
        self.spend()?;
        self.seen.resize(len, 0)?;
        Ok(())
    }

    /// Has what was written outlast a stop.
    pub(crate) fn sync(&mut self) -> io::Result<()>
        ensures synced { OnOk result (synced_on self.new ≡ seen_on self.old) }
        ensures err { OnErr result (synced_on self.new ≡ synced_on self.old) }
        ensures seen { seen_on self.new ≡ seen_on self.old }
        ensures refused { calls_left self.old ≡ 0 → IsErr result }
        ensures spends { Spends self.old self.new }
    {
        self.spend()?;
        self.synced = Vec::from_slice(*self.seen.allocator(), &self.seen)?;
        Ok(())
    }
}

// Puts bytes into a file, which is filled up with zeros to where they begin.
fn put(file: &mut Vec<u8>, at: usize, bytes: &[u8]) -> io::Result<()>
    ensures written { OnOk result (file.new.items ≡ overlaid file.old.items at bytes.now) }
    ensures low { OnOk result (at < 2 ^ 63) }
    ensures err { OnErr result (file.new.items ≡ file.old.items) }
{
    if at > MAX_OFFSET || bytes.len() > MAX_OFFSET {
        return Err(io::ErrorKind::InvalidInput.into());
    }
    let end = at + bytes.len();
    file.resize(file.len().max(end), 0)?;
    overwrite(file, at, bytes);
    Ok(())
}

// Puts bytes in the place of others.
fn overwrite(file: &mut [u8], at: usize, bytes: &[u8])
    requires { at + length bytes.now ≤ length file.old }
    ensures { file.new ≡ take at file.old ++ bytes.now ++ drop (at + length bytes.now) file.old }
{
    file[at..at + bytes.len()].copy_from_slice(bytes);
}

// What is left where every other sector, from one of the first two on, has what was synced, and junk
// where nothing was.
fn torn(alloc: Global, seen: &[u8], synced: &[u8], lost: usize) -> Result<Vec<u8>, AllocError>
    ensures { IfOk result (λ left. IsTorn lost seen.now synced.now left.items) }
{
    let mut left = Vec::new(alloc);
    for (place, byte) in seen.iter().enumerate() {
        left.push(if place / SECTOR % 2 == lost {
            old_byte(synced, place)
        } else {
            *byte
        })?;
    }
    Ok(left)
}

// The byte that was synced at a place, or junk where nothing was.
fn old_byte(synced: &[u8], place: usize) -> u8
    ensures { result ≡ slice_index_or synced.now place 165 }
{
    match synced.get(place) {
        Some(byte) => *byte,
        None => JUNK,
    }
}
