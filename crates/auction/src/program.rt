//! The program's run: words in, an exit status out.
ghost use Rattle.std.specs.Prelude.{◌≡◌, ◌≢◌, ◌≤◌, map, string_bytes};
ghost use Rattle.auction.specs.Remains.{left_of};
ghost use Rattle.auction.specs.Tasks.{HasNewHouse, HasRun, IsDone, IsLeftOf};
ghost use Rattle.auction_runs.specs.Served.{most_messages};
ghost use Rattle.clap.specs.Values.{kind_of};
ghost use Rattle.clap.specs.declared.error.kind.ErrorKind.TheVariants.{DisplayHelp, DisplayVersion};
ghost use Rattle.site_connections.specs.Turns.{Takes};

use crate::accounts::statement_file;
use crate::audit::{Comparison, compare};
use crate::files::{DiskInFile, Place};
use crate::houses::{KeepInFile, KeepInMemory};
use crate::lots::import_file;
use crate::remains::Remains;
use crate::replay::replay_input;
use crate::service::serve_file;
use crate::stores::{StoreBelow, StoreInFile};
use crate::upkeep::{bands_file, init_file, upgrade_file};
use auction_runs::{TaskFault, finish_run};
use auction_words::{Task, read_task};
use clap::Error;
use device::Writing;
use house_rows::{Ends, Keep};
use sqlite::{FileFrom, FileStore, Unknown};
use std::alloc::Global;
use std::env;
use std::io::{self, ErrorKind, Write};
use store::SqlKeep;
use store_list::ListKeep;
use tcp::{Listen, Listener};
use tree_order::Renumbered;

// The exit status of words that are no command line.
const REFUSED: u8 = 2;

/// Runs the program on its words, and gives its exit status.
pub fn run(rt: &HostRuntime) -> u8
    ensures { result ≤ 2 }
{
    let alloc = rt.alloc();
    match words(rt, alloc) {
        Ok(words) => start_at::<Unknown, Listener>(rt, alloc, words.as_slice(), Unknown),
        Err(error) => no_words(rt, error.kind()),
    }
}

// The end of a run whose words can't be read.
fn no_words(rt: &HostRuntime, kind: ErrorKind) -> u8
    ensures { result ≤ 2 }
{
    if kind == ErrorKind::OutOfMemory {
        return no_memory(rt);
    }
    let _ = writeln!(rt.stderr(), "auction: command line");
    REFUSED
}

// The words of the command line. A word that is not UTF-8 is an error.
fn words(rt: &HostRuntime, alloc: Global) -> io::Result<Vec<String>> {
    Ok(env::args(rt)?.collect(alloc)?)
}

// The end of a run that found no memory.
fn no_memory(rt: &HostRuntime) -> u8
    ensures { result ≡ 1 }
{
    finish_run(&mut Writing::new(rt.stderr()), Err(TaskFault::Memory))
}

/// Does what the words ask for, with houses in files that hold whatever `first` stands for, and gives
/// the exit status.
pub fn start_at<T: Place, C: Listen>(
    rt: &HostRuntime,
    alloc: Global,
    words: &[String],
    first: T,
) -> u8
    ensures within { result ≤ 2 }
    ensures done { result ≡ 0 → HasRun ⟦<SqlKeep<Renumbered<FileStore<FileFrom<T>>>> as Keep>⟧
        ⟦<SqlKeep<Renumbered<FileStore<FileFrom<T>>>> as Ends>⟧.is_ended
        ⟦<FileStore<FileFrom<T>> as StoreBelow>⟧.is_opened
        ⟦<FileStore<FileFrom<T>> as StoreBelow>⟧.is_new
        ⟦<FileStore<FileFrom<T>> as StoreBelow>⟧.is_upgraded ⟦<ListKeep as Keep>⟧.content
        C.is_at C.Input.Source C.Output.Sink C.accepts C.ends (map string_bytes words.now) }
{
    start_on::<FileFrom<T>, C>(rt, alloc, words, first)
}

// The same, with houses in the files of a disk.
fn start_on<D: DiskInFile, C: Listen>(
    rt: &HostRuntime,
    alloc: Global,
    words: &[String],
    first: D::First,
) -> u8
    ensures within { result ≤ 2 }
    ensures done { result ≡ 0 → HasRun ⟦<SqlKeep<Renumbered<FileStore<D>>> as Keep>⟧
        ⟦<SqlKeep<Renumbered<FileStore<D>>> as Ends>⟧.is_ended
        ⟦<FileStore<D> as StoreBelow>⟧.is_opened ⟦<FileStore<D> as StoreBelow>⟧.is_new
        ⟦<FileStore<D> as StoreBelow>⟧.is_upgraded ⟦<ListKeep as Keep>⟧.content
        C.is_at C.Input.Source C.Output.Sink C.accepts C.ends (map string_bytes words.now) }
{
    start_below::<FileStore<D>, C>(rt, alloc, words, first)
}

// The same, with houses that are shown in their order over a store in files.
fn start_below<S: StoreBelow, C: Listen>(
    rt: &HostRuntime,
    alloc: Global,
    words: &[String],
    first: S::First,
) -> u8
where
    SqlKeep<Renumbered<S>>: Ends,
    ensures within { result ≤ 2 }
    ensures done { result ≡ 0 → HasRun ⟦<SqlKeep<Renumbered<S>> as Keep>⟧
        ⟦<SqlKeep<Renumbered<S>> as Ends>⟧.is_ended S.is_opened S.is_new S.is_upgraded
        ⟦<ListKeep as Keep>⟧.content
        C.is_at C.Input.Source C.Output.Sink C.accepts C.ends (map string_bytes words.now) }
{
    start::<Renumbered<S>, C>(rt, alloc, words, first)
}

// The same, with houses in the files of a store. Here alone the keeps are named, and that in a file
// over any store: what runs over any keep can't be called of it by its full name.
fn start<S: StoreInFile, C: Listen>(
    rt: &HostRuntime,
    alloc: Global,
    words: &[String],
    first: S::First,
) -> u8
where
    SqlKeep<S>: Ends,
    ensures within { result ≤ 2 }
    ensures done { result ≡ 0 → HasRun ⟦<SqlKeep<S> as Keep>⟧ ⟦<SqlKeep<S> as Ends>⟧.is_ended
        S.is_opened S.is_new S.is_upgraded ⟦<ListKeep as Keep>⟧.content
        C.is_at C.Input.Source C.Output.Sink C.accepts C.ends (map string_bytes words.now) }
{
    start_over::<SqlKeep<S>, ListKeep, C>(rt, alloc, words, first)
}

// The same, over keeps in files and in memory. It closes the file.
fn start_over<F: KeepInFile, M: KeepInMemory, C: Listen>(
    rt: &HostRuntime,
    alloc: Global,
    words: &[String],
    first: F::First,
) -> u8
    ensures within { result ≤ 2 }
    ensures done { result ≡ 0 → HasRun F.Keep F.is_ended F.is_opened F.is_new F.is_upgraded
        M.content C.is_at C.Input.Source C.Output.Sink C.accepts C.ends
        (map string_bytes words.now) }
{
    match read_task(alloc, words) {
        Ok(Some(task)) => {
            let (status, _) = do_task::<F, M, C>(rt, alloc, &task, first);
            status
        }
        // It is never so, by `given` of `read_task`.
        Ok(None) => REFUSED,
        Err(error) => refuse(rt, &error),
    }
}

// Does what is asked for, and gives the exit status and what is left of the file.
fn do_task<F: KeepInFile, M: KeepInMemory, C: Listen>(
    rt: &HostRuntime,
    alloc: Global,
    task: &Task<'_>,
    first: F::First,
) -> (u8, Remains<F::Rest, F::Left>)
    ensures done { result.0 ≡ 0 → IsDone F.Keep C.is_at F.is_ended F.is_opened F.is_new
        F.is_upgraded
        (λ zone. Takes F.Keep C.Input.Source C.Output.Sink C.accepts C.ends zone most_messages)
        task.now (left_of result.1) }
    ensures made { result.0 ≡ 0 → HasNewHouse M.content task.now }
    ensures left { IsLeftOf F.Keep C.is_at F.is_ended F.is_left F.is_opened F.is_new
        F.is_upgraded F.is_held F.is_made F.is_grown
        (λ zone. Takes F.Keep C.Input.Source C.Output.Sink C.accepts C.ends zone most_messages)
        task.now result.1 }
    ensures within { result.0 ≤ 1 }
{
    match task {
        Task::Init(path, house) => init_file::<F>(rt, alloc, path, house, first),
        Task::Serve(path, asked) => serve_file::<F, C>(rt, alloc, path, *asked, first),
        Task::Import(path, asked) => import_file::<F>(rt, alloc, path, *asked, first),
        Task::Statement(path, asked) => statement_file::<F>(rt, alloc, path, asked, first),
        Task::Bands(path, asked) => bands_file::<F>(rt, alloc, path, *asked, first),
        Task::Upgrade(path) => upgrade_file::<F>(rt, alloc, path, first),
        Task::Replay(house, asked) => {
            (
                replay_input::<M>(rt, alloc, house, *asked),
                Remains::Unopened,
            )
        }
        Task::Audit(begun, asked) => {
            let asked = Comparison::Audit(*asked);
            (
                compare::<M, F::First>(rt, alloc, begun, asked, first),
                Remains::Unopened,
            )
        }
        Task::Surplus(begun, asked) => {
            let asked = Comparison::Surplus(*asked);
            (
                compare::<M, F::First>(rt, alloc, begun, asked, first),
                Remains::Unopened,
            )
        }
    }
}

// The end of a run whose words are refused, or ask for help.
fn refuse(rt: &HostRuntime, error: &Error) -> u8
    ensures within { result ≤ 2 }
    ensures mistake { (kind_of error.now ≢ DisplayHelp) → (kind_of error.now ≢ DisplayVersion)
        → result ≢ 0 }
{
    if error.kind() == clap::error::ErrorKind::OutOfMemory {
        return no_memory(rt);
    }
    let _ = error.print(rt);
    if error.exit_code() == 0 { 0 } else { REFUSED }
}
