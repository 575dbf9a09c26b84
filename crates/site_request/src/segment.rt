//! The segments of a target.
ghost use Rattle.std.specs.Prelude.{◌≡◌, option_map};
ghost use Rattle.site_request.specs.Segments.{number_at, segment_at};

use site_digits::number;
use std::marker::Model;

/// A segment of a target, as it came. Clauses see its bytes.
#[derive(Drop)]
pub struct Segment<'t>(&'t [u8]);

impl<'t> Model for Segment<'t> {
    ghost use Rattle.std.specs.Prelude.{List, ℕ};

    ghost Value = { List ℕ };

    ghost view = { λ s. s.0.now };
}

impl<'t> Segment<'t> {
    /// Its bytes.
    pub fn bytes(&self) -> &'t [u8]
        ensures { result.now ≡ self.now }
    {
        self.0
    }
}

// The bytes of the segment in that place.
#[tactic(auto, unfolding(crate::specs::Segments::segment_at))]
fn bytes_at(target: &[u8], place: usize) -> Option<&[u8]>
    ensures { option_map (λ s. s.now) result ≡ segment_at place target.now }
{
    target.split(|byte| *byte == b'/').nth(place)
}

/// The segment of the target in that place, counted from 0, which is before the first slash.
pub(crate) fn segment_at(target: &[u8], place: usize) -> Option<Segment<'_>>
    ensures { result ≡ segment_at place target.now }
{
    match bytes_at(target, place) {
        Some(bytes) => Some(Segment(bytes)),
        None => None,
    }
}

/// The number that the segment in that place is.
#[tactic(auto, unfolding(crate::specs::Segments::number_at))]
pub(crate) fn number_at(target: &[u8], place: usize) -> Option<u64>
    ensures { result ≡ number_at place target.now }
{
    match bytes_at(target, place) {
        Some(bytes) => number(bytes),
        None => None,
    }
}
