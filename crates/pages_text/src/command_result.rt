//! The result of an accepted command.
ghost use Rattle.std.specs.Prelude.{◌≡◌, ◌++◌, OnOk};
ghost use Rattle.std.specs.Io.{StartsWith};
ghost use Rattle.house_rows.specs.declared.command_result.CommandResult.TheVariants.{Placed, Settlement};
ghost use Rattle.pages_json.specs.Words.{text_of};
ghost use Rattle.pages_text.specs.Trees.{result_tree};

use crate::entries::rating_value;
use cents::Cents;
use house_rows::CommandResult;
use pages_json::{Field, Shows, key, put_object};
use std::alloc::{AllocError, Global};

/// The results of accepted commands.
#[derive(Clone, Copy)]
pub struct AsCommandResult;

impl Shows<CommandResult> for AsCommandResult {
    ghost tree = { λ _ report. result_tree report };

    fn put(
        &self,
        alloc: Global,
        out: &mut Vec<u8>,
        report: &CommandResult,
    ) -> Result<(), AllocError> {
        match *report {
            CommandResult::Registered { member } => put_object(
                alloc,
                out,
                &[(key!("member"), number(member))],
            ),
            CommandResult::Added { category } => put_object(
                alloc,
                out,
                &[(key!("category"), number(category))],
            ),
            CommandResult::Listing { item } => put_object(
                alloc,
                out,
                &[(key!("item"), number(item))],
            ),
            CommandResult::Placed {
                count,
                floor,
                leader,
                price,
            } => put_placed(alloc, out, count, floor, leader, price),
            CommandResult::Bought { item, price } => put_object(
                alloc,
                out,
                &[
                    (key!("item"), number(item)),
                    (key!("price"), Field::Number(price.value())),
                ],
            ),
            CommandResult::Closed { sold, unsold } => put_object(
                alloc,
                out,
                &[
                    (key!("sold"), Field::Number(sold)),
                    (key!("unsold"), Field::Number(unsold)),
                ],
            ),
            CommandResult::Settlement {
                fee,
                item,
                net,
                price,
            } => put_settlement(alloc, out, fee, item, net, price),
            CommandResult::Watched { item, watched } => put_object(
                alloc,
                out,
                &[
                    (key!("item"), number(item)),
                    (key!("watched"), Field::Flag(watched)),
                ],
            ),
            CommandResult::Question {
                asker,
                item,
                number: place,
            } => put_object(
                alloc,
                out,
                &[
                    (key!("asker"), number(asker)),
                    (key!("item"), number(item)),
                    (key!("number"), number(place)),
                ],
            ),
            CommandResult::Rated { item, rating, to } => put_object(
                alloc,
                out,
                &[
                    (key!("item"), number(item)),
                    (key!("rating"), Field::Integer(rating_value(rating))),
                    (key!("to"), number(to)),
                ],
            ),
            CommandResult::Edition { edition } => put_object(
                alloc,
                out,
                &[(key!("edition"), number(edition))],
            ),
            CommandResult::Nothing => put_object(alloc, out, &[]),
        }
    }
}

// The result of a bid.
fn put_placed(
    alloc: Global,
    out: &mut Vec<u8>,
    count: u32,
    floor: u64,
    leader: Option<u32>,
    price: Cents,
) -> Result<(), AllocError>
    ensures text { OnOk result (out.new.items ≡ out.old.items
        ++ text_of (result_tree (Placed count floor leader price))) }
    ensures front { StartsWith out.new.items out.old.items }
{
    put_object(
        alloc,
        out,
        &[
            (key!("count"), number(count)),
            (key!("floor"), Field::Number(floor)),
            (key!("leader"), Field::Maybe(leader.map(u64::from))),
            (key!("price"), Field::Number(price.value())),
        ],
    )
}

// The result of a settlement.
fn put_settlement(
    alloc: Global,
    out: &mut Vec<u8>,
    fee: u64,
    item: u32,
    net: u64,
    price: Cents,
) -> Result<(), AllocError>
    ensures text { OnOk result (out.new.items ≡ out.old.items
        ++ text_of (result_tree (Settlement fee item net price))) }
    ensures front { StartsWith out.new.items out.old.items }
{
    put_object(
        alloc,
        out,
        &[
            (key!("fee"), Field::Number(fee)),
            (key!("item"), number(item)),
            (key!("net"), Field::Number(net)),
            (key!("price"), Field::Number(price.value())),
        ],
    )
}

// The number of a row.
fn number(n: u32) -> Field<'static>
    ensures { result ≡ Field.Number n }
{
    Field::Number(u64::from(n))
}
