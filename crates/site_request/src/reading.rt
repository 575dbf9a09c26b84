//! Reading a message.
ghost use Rattle.std.specs.Prelude.{◌≡◌, Some, Ok, Err};
ghost use Rattle.house_rows.specs.declared.message.Message.TheVariants as message;
ghost use Rattle.site_request.specs.Asked.{asked_of, asks_of, called, message_of, ordered};
ghost use Rattle.site_request.specs.Reading.{IsRead, IsReadAs, IsRequestRead};
ghost use Rattle.site_request.specs.Heads.{moment_in, numbered};

use crate::asked::{Asked, NoMemory};
use crate::command_path::CommandPath;
use crate::commands::command;
use crate::days::period;
use crate::fault::RequestFault;
use crate::route::Route;
use crate::routes::Routes;
use crate::unread::{Unread, Wrong};
use crate::unrouted::RouteFault;
use house_rows::{Message, Query};
use json::Scratch;
use settle::LAST_MOMENT;
use site_digits::count;
use std::alloc::Global;
use wire::{Request, whole};

// What a message asks that asks for nothing.
fn broken(closes: bool, caller: Option<u64>, fault: RequestFault) -> Result<Asked, NoMemory>
    ensures { IsReadAs closes caller (Err fault) result }
{
    Ok(Asked {
        closes,
        message: Message::Broken { caller, fault },
    })
}

// What a read of a caller asks.
fn read_page(closes: bool, caller: u64, query: Query) -> Result<Asked, NoMemory>
    ensures { IsReadAs closes (Some caller) (Ok (message.Read caller query)) result }
{
    Ok(Asked {
        closes,
        message: Message::Read { caller, query },
    })
}

// What a command of a caller asks.
#[tactic(auto, unfolding(crate::specs::Asked::ordered))]
fn read_command(
    alloc: Global,
    closes: bool,
    caller: u64,
    path: CommandPath,
    request: &Request<'_>,
    scratch: &mut Scratch,
) -> Result<Asked, NoMemory>
    ensures { IsReadAs closes (Some caller) (ordered caller path request.now) result }
{
    let Some(moment) = moment(request) else {
        return broken(closes, Some(caller), RequestFault::Moment);
    };
    match command(alloc, path, request.body(), scratch) {
        Ok(command) => Ok(Asked {
            closes,
            message: Message::Write {
                moment,
                caller,
                command,
            },
        }),
        Err(Unread::Wrong(Wrong::NoObject)) => broken(closes, Some(caller), RequestFault::Json),
        Err(Unread::Wrong(Wrong::Field(field))) => {
            broken(closes, Some(caller), RequestFault::Field(field))
        }
        Err(Unread::Memory) => Err(NoMemory { closes }),
    }
}

// What a whole message asks, once its caller is known, or that it has none. Each part makes the
// whole result: a command is large, and is moved with each wrapping.
#[tactic(auto, unfolding(crate::specs::Asked::asks_of, crate::specs::Asked::called))]
fn asks(
    alloc: Global,
    routes: &Routes,
    closes: bool,
    caller: Option<u64>,
    request: &Request<'_>,
    scratch: &mut Scratch,
) -> Result<Asked, NoMemory>
    ensures { IsReadAs closes caller (asks_of caller request.now) result }
{
    let route = match routes.find(request.method(), request.target()) {
        Ok(route) => route,
        Err(RouteFault::Path) => return broken(closes, caller, RequestFault::Path),
        Err(RouteFault::Method(methods)) => {
            return broken(closes, caller, RequestFault::Method(methods));
        }
    };
    let Some(caller) = caller else {
        return broken(closes, None, RequestFault::Member);
    };
    match route {
        Route::Post(path) => read_command(alloc, closes, caller, path, request, scratch),
        Route::Read(query) => read_page(closes, caller, query),
        Route::Statement { from, to } => match period(from.bytes(), to.bytes()) {
            Ok(query) => read_page(closes, caller, query),
            Err(fault) => broken(closes, Some(caller), fault),
        },
    }
}

/// What a whole message asks.
#[tactic(auto, unfolding(crate::specs::Asked::asked_of, crate::specs::Asked::message_of, crate::specs::Heads::caller_in))]
pub fn read_request(
    alloc: Global,
    routes: &Routes,
    request: &Request<'_>,
    scratch: &mut Scratch,
) -> Result<Asked, NoMemory>
    ensures { IsRequestRead request.now result }
{
    let caller = number_of(request, b"x-member");
    asks(alloc, routes, request.closes(), caller, request, scratch)
}

/// What a text asks that is to be one message.
pub fn read(
    alloc: Global,
    routes: &Routes,
    text: &[u8],
    scratch: &mut Scratch,
) -> Result<Asked, NoMemory>
    ensures { IsRead text.now result }
{
    match whole(text) {
        Ok(request) => read_request(alloc, routes, &request, scratch),
        Err(fault) => Ok(Asked {
            closes: true,
            message: Message::Broken {
                caller: None,
                fault: RequestFault::Frame(fault),
            },
        }),
    }
}

// The number of a field that occurs exactly once. The look-up of a constant name is a compare.
#[inline(always)]
#[tactic(auto, unfolding(crate::specs::Heads::numbered))]
fn number_of(request: &Request<'_>, name: &[u8]) -> Option<u64>
    ensures { result ≡ numbered name.now request.now }
{
    match request.one(name) {
        Some(text) => count(text),
        None => None,
    }
}

// The moment of a command, in seconds since 1970.
#[inline(always)]
#[tactic(auto, unfolding(crate::specs::Heads::moment_in))]
fn moment(request: &Request<'_>) -> Option<u64>
    ensures { result ≡ moment_in request.now }
{
    let moment = number_of(request, b"x-moment")?;
    if moment <= LAST_MOMENT {
        Some(moment)
    } else {
        None
    }
}
