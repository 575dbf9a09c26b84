//! The routes of the house, with the numbers that are in a target.
ghost use Rattle.std.specs.Prelude.{◌≡◌};
ghost use Rattle.site_request.specs.Routes.{by_both, by_method, path_in, route_of};
ghost use Rattle.site_request.specs.Table.{rows};
ghost use Rattle.site_request.specs.Numbers.{command_path_in, read_in};

use crate::command_path::CommandPath;
use crate::path::{Path, Read};
use crate::route::Route;
use crate::segment::{number_at, segment_at};
use crate::table::router;
use crate::unrouted::RouteFault;
use house_rows::Query;
use matchit::Router;
use std::alloc::{AllocError, Global};
use std::str::from_utf8;
use wire::Methods;

const GET: &[u8] = b"GET";

const POST: &[u8] = b"POST";

/// The routes of the house, in a table that is made once.
#[derive(Drop)]
pub struct Routes {
    router: Router<Path>,
    ghost whole: { router ≡ rows },
}

// A route, if the method is its own. With none the target has no path.
fn by_method<'t>(
    route: Option<Route<'t>>,
    is_method: bool,
    methods: Methods,
) -> Result<Route<'t>, RouteFault>
    ensures { result ≡ by_method route.entry is_method methods }
{
    match route {
        None => Err(RouteFault::Path),
        Some(route) => if is_method {
            Ok(route)
        } else {
            Err(RouteFault::Method(methods))
        },
    }
}

// The route of a path with both methods.
fn by_both<'t>(query: Query, path: CommandPath, method: &[u8]) -> Result<Route<'t>, RouteFault>
    ensures { result ≡ by_both query path method.now }
{
    if method == GET {
        Ok(Route::Read(query))
    } else {
        by_method(Some(Route::Post(path)), method == POST, Methods::GetAndPost)
    }
}

impl Routes {
    /// The table. This call alone takes memory.
    pub fn new(alloc: Global) -> Result<Routes, AllocError> {
        match router(alloc) {
            Ok(router) => Ok(Routes { router }),
            Err(_) => Err(AllocError),
        }
    }

    // The path whose pattern a target fits.
    fn path_in(&self, target: &[u8]) -> Option<Path>
        ensures { result ≡ path_in target.now }
    {
        let Ok(text) = from_utf8(target) else {
            return None;
        };
        match self.router.at(text) {
            Ok(found) => Some(*found.value),
            Err(_) => None,
        }
    }

    /// The route of a method and a target, byte by byte: nothing in a target is decoded. The path
    /// and its numbers are judged before the method.
    #[tactic(auto, unfolding(crate::specs::Routes::route_of))]
    pub fn find<'t>(&self, method: &[u8], target: &'t [u8]) -> Result<Route<'t>, RouteFault>
        ensures { result ≡ route_of method.now target.now }
    {
        match self.path_in(target) {
            None => Err(RouteFault::Path),
            Some(Path::Get(read)) => by_method(read_in(read, target), method == GET, Methods::Get),
            Some(Path::Post(path)) => {
                by_method(command_path_in(path, target), method == POST, Methods::Post)
            }
            Some(Path::Categories) => by_both(Query::Categories, CommandPath::AddCategory, method),
            Some(Path::Bands) => by_both(Query::Bands, CommandPath::SetBands, method),
        }
    }
}

/// The route of a command's path, if the target has a number in the place of each.
#[tactic(auto, unfolding(crate::specs::Numbers::command_path_in))]
pub(crate) fn command_path_in(path: CommandPath, target: &[u8]) -> Option<Route<'_>>
    ensures { result ≡ command_path_in path target.now }
{
    Some(Route::Post(match path {
        CommandPath::Register => CommandPath::Register,
        CommandPath::AddCategory => CommandPath::AddCategory,
        CommandPath::List => CommandPath::List,
        CommandPath::Bid { .. } => CommandPath::Bid {
            item: number_at(target, 2)?,
        },
        CommandPath::Buy { .. } => CommandPath::Buy {
            item: number_at(target, 2)?,
        },
        CommandPath::Close => CommandPath::Close,
        CommandPath::Settle { .. } => CommandPath::Settle {
            item: number_at(target, 2)?,
        },
        CommandPath::Watch { .. } => CommandPath::Watch {
            item: number_at(target, 2)?,
        },
        CommandPath::Unwatch { .. } => CommandPath::Unwatch {
            item: number_at(target, 2)?,
        },
        CommandPath::Ask { .. } => CommandPath::Ask {
            item: number_at(target, 2)?,
        },
        CommandPath::Answer { .. } => CommandPath::Answer {
            item: number_at(target, 2)?,
            asker: number_at(target, 4)?,
            number: number_at(target, 5)?,
        },
        CommandPath::Feedback { .. } => CommandPath::Feedback {
            item: number_at(target, 2)?,
        },
        CommandPath::SetBands => CommandPath::SetBands,
    }))
}

/// The route of a read's path, if the target has a number in the place of each.
#[tactic(auto, unfolding(crate::specs::Numbers::read_in))]
pub(crate) fn read_in(read: Read, target: &[u8]) -> Option<Route<'_>>
    ensures { result ≡ read_in read target.now }
{
    Some(Route::Read(match read {
        Read::House => Query::House,
        Read::BandsOf => Query::BandsOf {
            edition: number_at(target, 2)?,
        },
        Read::ItemsIn => Query::ItemsIn {
            category: number_at(target, 2)?,
            from: number_at(target, 4)?,
        },
        Read::Item => Query::Item {
            item: number_at(target, 2)?,
        },
        Read::Questions => Query::Questions {
            item: number_at(target, 2)?,
            from: number_at(target, 4)?,
        },
        Read::Member => Query::Member {
            member: number_at(target, 2)?,
        },
        Read::FeedbackTo => Query::FeedbackTo {
            member: number_at(target, 2)?,
            from: number_at(target, 4)?,
        },
        Read::MyBids => Query::MyBids {
            from: number_at(target, 3)?,
        },
        Read::MyReserves => Query::MyReserves {
            from: number_at(target, 3)?,
        },
        Read::MyWatches => Query::MyWatches,
        Read::MyQuestions => Query::MyQuestions {
            from: number_at(target, 3)?,
        },
        Read::MyWaiting => Query::MyWaiting,
        Read::MyStatement => {
            return Some(Route::Statement {
                from: segment_at(target, 3)?,
                to: segment_at(target, 4)?,
            });
        }
    }))
}
