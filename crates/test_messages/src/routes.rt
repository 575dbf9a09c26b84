//! The section on routes: each line is a method and a target.
//!
//! It is answered by what the route is for, with its numbers, or by 404 or 405, with the methods of the path after 405.
use crate::words::first_word;
use site_request::{Route, RouteFault, Routes, Segment};
use std::alloc::{AllocError, Global};
use std::str::from_utf8;

/// What is found for a line.
pub(crate) fn answer(alloc: Global, routes: &Routes, line: &str) -> Result<String, AllocError> {
    let (method, target) = first_word(line);
    match routes.find(method.as_bytes(), target.as_bytes()) {
        Ok(route) => line_of(alloc, &route),
        Err(RouteFault::Path) => format!(in alloc; "404"),
        Err(RouteFault::Method(methods)) => format!(in alloc; "405 {}", methods.text()),
    }
}

// A route: a command, a read, or the statement of two days as they are in the target.
fn line_of(alloc: Global, route: &Route<'_>) -> Result<String, AllocError> {
    match route {
        Route::Post(path) => format!(in alloc; "{path:?}"),
        Route::Read(query) => format!(in alloc; "{query:?}"),
        Route::Statement { from, to } => {
            format!(in alloc; "Statement {} {}", text_of(from), text_of(to))
        }
    }
}

// A segment that is a text.
fn text_of<'t>(segment: &Segment<'t>) -> &'t str {
    from_utf8(segment.bytes()).unwrap_or("no text")
}
