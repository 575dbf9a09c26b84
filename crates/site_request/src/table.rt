//! The patterns of the paths, and a router of them.
ghost use Rattle.std.specs.Prelude.{◌≡◌, IfOk, OnOk, map};
ghost use Rattle.site_request.specs.Table.{added, added_one, rows};

use crate::command_path::CommandPath;
use crate::path::Path::{self, Bands, Categories, Get, Post};
use crate::path::Read;
use matchit::{InsertError, Router};
use std::alloc::Global;

static TABLE: [(&str, Path); 26] = [
    ("/members", Post(CommandPath::Register)),
    ("/categories", Categories),
    ("/items", Post(CommandPath::List)),
    ("/items/{item}/bids", Post(CommandPath::Bid { item: 0 })),
    ("/items/{item}/purchase", Post(CommandPath::Buy { item: 0 })),
    ("/close", Post(CommandPath::Close)),
    (
        "/items/{item}/settle",
        Post(CommandPath::Settle { item: 0 }),
    ),
    ("/items/{item}/watch", Post(CommandPath::Watch { item: 0 })),
    (
        "/items/{item}/unwatch",
        Post(CommandPath::Unwatch { item: 0 }),
    ),
    (
        "/items/{item}/questions",
        Post(CommandPath::Ask { item: 0 }),
    ),
    (
        "/items/{item}/questions/{asker}/{number}/answer",
        Post(CommandPath::Answer {
            item: 0,
            asker: 0,
            number: 0,
        }),
    ),
    (
        "/items/{item}/feedback",
        Post(CommandPath::Feedback { item: 0 }),
    ),
    ("/house", Get(Read::House)),
    ("/bands", Bands),
    ("/bands/{edition}", Get(Read::BandsOf)),
    ("/categories/{category}/items/{from}", Get(Read::ItemsIn)),
    ("/items/{item}", Get(Read::Item)),
    ("/items/{item}/questions/{from}", Get(Read::Questions)),
    ("/members/{member}", Get(Read::Member)),
    ("/members/{member}/feedback/{from}", Get(Read::FeedbackTo)),
    ("/me/bids/{from}", Get(Read::MyBids)),
    ("/me/reserves/{from}", Get(Read::MyReserves)),
    ("/me/watches", Get(Read::MyWatches)),
    ("/me/questions/{from}", Get(Read::MyQuestions)),
    ("/me/waiting", Get(Read::MyWaiting)),
    ("/me/statement/{from}/{to}", Get(Read::MyStatement)),
];

// Adds one path.
fn add(router: &mut Router<Path>, pattern: &str, path: Path) -> Result<(), InsertError>
    ensures { OnOk result (router.new ≡ added_one pattern.now path router.old) }
{
    router.insert(pattern, path)
}

// Adds each path in turn.
fn add_all(router: &mut Router<Path>, table: &[(&str, Path)]) -> Result<(), InsertError>
    ensures { OnOk result (router.new ≡ added (map (λ p. (p.0.now, p.1)) table.now) router.old) }
{
    for (pattern, path) in table {
        add(router, pattern, *path)?;
    }
    Ok(())
}

/// A router of the table.
pub(crate) fn router(alloc: Global) -> Result<Router<Path>, InsertError>
    ensures { IfOk result (λ r. r ≡ rows) }
{
    let mut router = Router::new(alloc);
    add_all(&mut router, &TABLE)?;
    Ok(router)
}
