//! How fast the wire is: `bench_wire frames N` takes N times 16 bids through an inbox, `asks` also
//! asks each for two fields, and `answers N` writes N times 16 answers into one buffer. Each prints
//! a sum over what it saw, which the plain program in `bench/plain` prints too. Where memory is wanting
//! it prints `bench_wire: memory` on standard error.
#![tactic(auto)]

ghost use Rattle.std.specs.Prelude.{◌≤◌, length};

use std::alloc::{AllocError, Global};
use std::process::ExitCode;
use std::rt::Env;
use wire::{Inbox, Look, Request, Response, Status};

const BID: &[u8] =
    b"POST /items/1/bids HTTP/1.1\r\nhost: h\r\nx-member: 2\r\nx-moment: 1001\r\ncontent-length: 15\r\n\r\n{\"maximum\":500}";

const BODY: &[u8] = b"{\"count\":1,\"floor\":550,\"leader\":2,\"price\":500}";

const AT_A_TIME: usize = 16;

// Copies as many of the bytes as there is room for, and gives how many.
fn give(room: &mut [u8], bytes: &[u8]) -> usize
    ensures room { result ≤ length room.new }
    ensures fits { result ≤ length bytes.now }
{
    let count = room.len().min(bytes.len());
    room[..count].copy_from_slice(&bytes[..count]);
    count
}

// What is seen of a message.
fn seen(request: &Request<'_>, asks: bool) -> usize {
    let mut sum = request
        .method()
        .len()
        .wrapping_add(request.target().len())
        .wrapping_add(request.body().len())
        .wrapping_add(usize::from(request.closes()));
    if asks {
        for name in [b"x-member".as_slice(), b"x-moment".as_slice()] {
            sum = sum.wrapping_add(request.one(name).map_or(0, |value| value.len()));
        }
    }
    sum
}

// Takes the messages out of an inbox, and gives what was seen of them.
fn drain(inbox: &mut Inbox, asks: bool) -> usize {
    let mut sum = 0usize;
    for _ in 0..AT_A_TIME + 1 {
        let length = match inbox.look(false) {
            Look::Whole(request) => {
                sum = sum.wrapping_add(seen(&request, asks));
                request.length()
            }
            _ => return sum,
        };
        inbox.done(length);
    }
    sum
}

fn frames(alloc: Global, rounds: u64, asks: bool) -> Result<usize, AllocError> {
    let mut block = Vec::new(alloc);
    for _ in 0..AT_A_TIME {
        block.extend_from_slice(BID)?;
    }
    let mut inbox = Inbox::new(alloc)?;
    let mut sum = 0usize;
    for _ in 0..rounds {
        let mut rest = block.as_slice();
        for _ in 0..3 {
            if rest.is_empty() {
                break;
            }
            let count = give(inbox.space(), rest);
            inbox.took(count);
            rest = &rest[count..];
            sum = sum.wrapping_add(drain(&mut inbox, asks));
        }
    }
    Ok(sum)
}

fn responses(alloc: Global, rounds: u64) -> Result<usize, AllocError> {
    let mut out = Vec::new(alloc);
    let mut sum = 0usize;
    for _ in 0..rounds {
        out.clear();
        for place in 0..AT_A_TIME {
            let response = Response {
                status: Status::Created,
                allow: None,
                closes: false,
                body: &BODY[..BODY.len() - place % 2],
            };
            response.write_into(&mut out)?;
        }
        sum = sum.wrapping_add(out.len());
    }
    Ok(sum)
}

fn sum_of(rt: &(impl Env + AllocGlobal), alloc: Global) -> Result<usize, AllocError> {
    let words = match std::env::args(rt) {
        Ok(words) => words.collect::<Vec<String>>(alloc)?,
        Err(_) => return Err(AllocError),
    };
    let [_, what, rounds] = words.as_slice() else {
        return Ok(0);
    };
    let rounds = rounds.as_str().parse().unwrap_or(0);
    match what.as_str() {
        "frames" => frames(alloc, rounds, false),
        "asks" => frames(alloc, rounds, true),
        _ => responses(alloc, rounds),
    }
}

fn main(rt: HostRuntime) -> ExitCode {
    match sum_of(&rt, rt.alloc()) {
        Ok(sum) => {
            let _ = println!(rt; "{sum}");
            ExitCode::SUCCESS
        }
        Err(_) => {
            let _ = rt.eprintln("bench_wire: memory");
            ExitCode::FAILURE
        }
    }
}
