//! The laws.
ghost use Rattle.pages_laws.specs.Laws.{PagesAreSame};

/// A page by the tables of a history is that of the history.
#[tactic(auto, using(crate::proofs::Same::page_same))]
pub fn pages_are_same_by_tables()
    ensures { PagesAreSame }
{}
