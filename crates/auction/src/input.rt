//! Files that are read.
ghost use Rattle.std.specs.Prelude.{IfErr};
ghost use Rattle.auction_runs.specs.Faults.{IsOfInput};

use auction_runs::TaskFault;
use device::Reading;
use std::fs::File;
use std::io;
use std::rt::Files;

/// A file, to be read from its beginning.
pub fn open_input<R: Files>(rt: &R, path: &str) -> Result<R::File, TaskFault>
    ensures { IfErr result IsOfInput }
{
    match File::open(rt, path) {
        Ok(file) => Ok(file),
        Err(error) if error.kind() == io::ErrorKind::OutOfMemory => Err(TaskFault::Memory),
        Err(_) => Err(TaskFault::Read),
    }
}

/// A file, as a source.
pub fn open_source<R: Files>(rt: &R, path: &str) -> Result<Reading<R::File>, TaskFault>
    ensures { IfErr result IsOfInput }
{
    match open_input(rt, path) {
        Ok(file) => Ok(Reading::new(file)),
        Err(fault) => Err(fault),
    }
}
