//! What holds of every valid table.
ghost use Rattle.std.specs.Prelude.{◌≡◌, ◌≤◌, ◌<◌, ◌↔◌, ℕ, List, true};
ghost use Rattle.steps.specs.Table.{Band, IsBandTable, over, step_at};
ghost use Rattle.steps.specs.Valid.{is_band_table};

/// Over a valid table a step is at least 1 and never falls, and the least next amount rises
/// strictly.
#[tactic(auto, using(crate::proofs::Rising::step_positive, crate::proofs::Rising::step_small, crate::proofs::Rising::step_rises, crate::proofs::Rising::over_rises))]
pub fn valid_tables_rise()
    ensures positive { (bands : List Band) (amount : ℕ) → IsBandTable bands → 1 ≤ step_at bands amount }
    ensures small { (bands : List Band) (amount : ℕ) → IsBandTable bands → step_at bands amount ≤ 1000000000 }
    ensures steps { (bands : List Band) (low high : ℕ) → IsBandTable bands → low ≤ high →
        step_at bands low ≤ step_at bands high }
    ensures strictly { (bands : List Band) (low high : ℕ) → IsBandTable bands → low < high →
        over bands low < over bands high }
{}

/// Exactly the valid tables pass the test of rows.
#[tactic(auto, using(crate::proofs::Tested::tested))]
pub fn valid_tables_are_reported()
    ensures { (bands : List Band) → (is_band_table bands ≡ true) ↔ IsBandTable bands }
{}
