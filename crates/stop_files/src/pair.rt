//! Log and database file.
use crate::drive::{Stopping, files};
use crate::plate::{Loss, Plate};
use sqlite_disk::Files;
use std::alloc::{AllocError, Global};
use std::cell::RefCell;
use std::io;

/// Which of two files.
#[derive(Clone, Copy, Debug, PartialEq, Eq)]
pub enum Side {
    /// The log.
    Log,
    /// The database file.
    Database,
}

/// What two files hold.
#[derive(Drop)]
pub struct Image {
    log: Vec<u8>,
    database: Vec<u8>,
}

impl Image {
    /// Two files that hold nothing.
    pub fn blank(alloc: Global) -> Image {
        Image {
            log: Vec::new(alloc),
            database: Vec::new(alloc),
        }
    }
}

/// A log and a database file, which may stop.
#[derive(Drop)]
pub struct Pair {
    log: RefCell<Plate>,
    database: RefCell<Plate>,
}

impl Pair {
    /// Files that hold an image, and don't stop.
    pub fn of(alloc: Global, image: &Image) -> Result<Pair, AllocError> {
        Ok(Pair {
            log: RefCell::new(Plate::holding(alloc, &image.log)?),
            database: RefCell::new(Plate::holding(alloc, &image.database)?),
        })
    }

    fn plate(&self, side: Side) -> &RefCell<Plate> {
        match side {
            Side::Log => &self.log,
            Side::Database => &self.database,
        }
    }

    /// The files as a database asks for them.
    pub fn files(&self) -> Files<Stopping<'_>> {
        files(&self.log, &self.database)
    }

    /// One file answers so many calls more, and then none.
    pub fn stop_after(&self, side: Side, calls: u64) {
        if let Ok(mut plate) = self.plate(side).try_borrow_mut() {
            plate.stop_after(calls);
        }
    }

    /// Whether a file has refused a call.
    pub fn has_stopped(&self, side: Side) -> bool {
        match self.plate(side).try_borrow() {
            Ok(plate) => plate.has_stopped(),
            Err(_) => false,
        }
    }

    // What one file may hold when the machine comes back.
    fn left_on(&self, alloc: Global, side: Side, loss: Loss) -> io::Result<Vec<u8>> {
        match self.plate(side).try_borrow() {
            Ok(plate) => Ok(plate.after(alloc, loss)?),
            Err(_) => Err(io::Error::other("the file is held")),
        }
    }

    /// What the files may hold when the machine comes back, where each has lost the same. Nobody may hold them.
    pub fn left(&self, alloc: Global, loss: Loss) -> io::Result<Image> {
        Ok(Image {
            log: self.left_on(alloc, Side::Log, loss)?,
            database: self.left_on(alloc, Side::Database, loss)?,
        })
    }
}
