//! A plate as a database's disk asks for it: each call is made, and then noted with its answer.
ghost use Rattle.std.specs.Prelude.{◌≡◌, ◌<◌, ◌≤◌, ◌^◌, [], ◌∷◌, length, IfOk};
ghost use Rattle.sqlite_disk.specs.Events.{settled};

use crate::plate::Plate;
use crate::record::Record;
use sqlite_disk::{Calls, Files, Modelled, Unknown, is_no_room};
use std::cell::RefCell;
use std::io;

const SETTLED: u64 = 0;

const MEASURED: u64 = 1;

const READ: u64 = 2;

const WRITTEN: u64 = 3;

const CUT: u64 = 4;

const FLUSHED: u64 = 5;

const TESTED: u64 = 6;

// The key of all digests. A test needs no secret.
const KEY: u64 = 28;

/// A plate, and the calls on it so far.
#[derive(Drop)]
pub struct Drive<'p> {
    plate: &'p RefCell<Plate>,
    log: Record,
}

/// A disk over a plate, by the reading of a crash that a house in a file has.
pub type Stopping<'p> = Modelled<Drive<'p>, Unknown>;

/// The log and the database file on two plates.
pub(crate) fn files<'p>(log: &'p RefCell<Plate>, db: &'p RefCell<Plate>) -> Files<Stopping<'p>> {
    Files {
        log: Modelled::new(Drive::new(log), true, KEY),
        db: Modelled::new(Drive::new(db), false, KEY),
    }
}

// Nobody else holds a plate while it is asked.
fn held_error() -> io::Error {
    io::Error::other("the file is held")
}

fn measure(plate: &RefCell<Plate>) -> io::Result<usize> {
    match plate.try_borrow_mut() {
        Ok(mut plate) => plate.measure(),
        Err(_) => Err(held_error()),
    }
}

fn read(plate: &RefCell<Plate>, at: usize, buf: &mut [u8]) -> io::Result<usize>
    ensures { IfOk result (λ n. (0 < n) × (n ≤ length buf.old) × (at < 2 ^ 63)) }
{
    match plate.try_borrow_mut() {
        Ok(mut plate) => plate.read(at, buf),
        Err(_) => Err(held_error()),
    }
}

fn write(plate: &RefCell<Plate>, at: usize, bytes: &[u8]) -> io::Result<usize>
    ensures { IfOk result (λ n. (0 < n) × (n ≤ length bytes.now) × (at < 2 ^ 63)) }
{
    match plate.try_borrow_mut() {
        Ok(mut plate) => plate.write(at, bytes),
        Err(_) => Err(held_error()),
    }
}

fn resize(plate: &RefCell<Plate>, len: usize) -> io::Result<()> {
    match plate.try_borrow_mut() {
        Ok(mut plate) => plate.resize(len),
        Err(_) => Err(held_error()),
    }
}

fn sync(plate: &RefCell<Plate>) -> io::Result<()> {
    match plate.try_borrow_mut() {
        Ok(mut plate) => plate.sync(),
        Err(_) => Err(held_error()),
    }
}

impl<'p> Drive<'p> {
    // A plate on which no call was made, as it is settled.
    fn new(plate: &'p RefCell<Plate>) -> Drive<'p>
        ensures { result.log.events ≡ settled 28 ∷ [] }
    {
        let mut log = Record::new();
        log.note(&[SETTLED, KEY, 0, 1], &[]);
        Drive { plate, log }
    }
}

impl Calls for Drive<'_> {
    ghost history = { λ d. d.log.events };

    fn len(&mut self) -> io::Result<usize> {
        let answer = measure(self.plate);
        match answer {
            Ok(n) => self.log.note(&[MEASURED, n as u64, 0, 1], &[]),
            Err(_) => self.log.note(&[MEASURED, 0, 0, 0], &[]),
        }
        answer
    }

    fn read_some(&mut self, at: usize, buf: &mut [u8]) -> io::Result<usize> {
        let (at64, len) = (at as u64, buf.len() as u64);
        let answer = read(self.plate, at, buf);
        match answer {
            Ok(n) => self.log.note(&[READ, at64, len, 1], &buf[..n]),
            Err(_) => self.log.note(&[READ, at64, len, 0], &[]),
        }
        answer
    }

    fn read_under(&mut self, key: u64, want: u64, at: usize, buf: &mut [u8]) -> io::Result<usize> {
        let (at64, len) = (at as u64, buf.len() as u64);
        let answer = read(self.plate, at, buf);
        match answer {
            Ok(n) => self.log.note(&[TESTED, at64, len, 1, key, want], &buf[..n]),
            Err(_) => self.log.note(&[TESTED, at64, len, 0, key, want], &[]),
        }
        answer
    }

    fn write_some(&mut self, at: usize, bytes: &[u8]) -> io::Result<usize> {
        let answer = write(self.plate, at, bytes);
        match answer {
            Ok(n) => self.log.note(&[WRITTEN, at as u64, n as u64, 1], bytes),
            Err(error) => self.log.note(
                &[WRITTEN, at as u64, u64::from(is_no_room(&error)), 0],
                bytes,
            ),
        }
        answer
    }

    fn resize(&mut self, len: usize) -> io::Result<()> {
        let answer = resize(self.plate, len);
        match answer {
            Ok(()) => self.log.note(&[CUT, len as u64, 0, 1], &[]),
            Err(error) => self
                .log
                .note(&[CUT, len as u64, u64::from(is_no_room(&error)), 0], &[]),
        }
        answer
    }

    fn sync(&mut self) -> io::Result<()> {
        let answer = sync(self.plate);
        match answer {
            Ok(()) => self.log.note(&[FLUSHED, 0, 0, 1], &[]),
            Err(error) => self
                .log
                .note(&[FLUSHED, 0, u64::from(is_no_room(&error)), 0], &[]),
        }
        answer
    }
}
