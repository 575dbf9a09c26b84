//! Editions of the band table, as the record shows them.
ghost use Rattle.std.specs.Prelude.{◌≡◌, [], IfOk, option_map, unwrap_or};
ghost use Rattle.std.specs.List.{range_with_len};

use house_rows::Editions;
use pages_json::{Field, Shows, key, put_object_around};
use pages_text::AsBands;
use std::alloc::{AllocError, Global};
use steps::Bands;

/// The numbers from 1 to one.
#[tactic(auto, using(crate::proofs::Numbers::range_more))]
pub(crate) fn numbers_to(alloc: Global, most: u32) -> Result<Vec<u32>, AllocError>
    ensures { IfOk result (λ v. v.items ≡ range_with_len 1 most) }
{
    let mut numbers = Vec::new(alloc);
    for number in 0..most {
        numbers.push(number + 1)?;
    }
    Ok(numbers)
}

// The rows of a table, if there is one.
pub(crate) fn rows_of(bands: Option<&Bands>) -> &[(u64, u64)]
    ensures { result.now ≡ unwrap_or (option_map (λ b. b.now) bands.entry) [] }
{
    match bands {
        Some(bands) => bands.rows(),
        None => &[],
    }
}

/// Editions by their numbers, each with its band table.
#[derive(Clone, Copy)]
pub(crate) struct AsEditions<'e> {
    /// The band tables.
    pub(crate) editions: &'e Editions,
}

impl Shows<u32> for AsEditions<'_> {
    ghost use Rattle.house_rows.specs.Editions.{bands_of};
    ghost use Rattle.pages_record.specs.Record.{edition_tree};

    ghost tree = { λ by n. edition_tree n (bands_of by.editions.now n) };

    fn put(&self, alloc: Global, out: &mut Vec<u8>, number: &u32) -> Result<(), AllocError> {
        let number = u64::from(*number);
        let rows = rows_of(self.editions.bands_of(number));
        put_object_around(
            alloc,
            out,
            &[],
            key!("bands"),
            &AsBands,
            rows,
            &[(key!("edition"), Field::Number(number))],
        )
    }
}
