//! What the definitions mean. No code runs here.
ghost use Rattle.std.specs.Prelude.{◌≡◌, AllPairs, List, ℕ, None, Err};
ghost use Rattle.wire.specs.Message.{Message};
ghost use Rattle.wire.specs.declared.fault.WireFault.{WireFault};
ghost use Rattle.site_request.specs.Asked.{IsAsked, asked_of, caller_of, message_of};
ghost use Rattle.site_request.specs.Fits.{Fits};
ghost use Rattle.site_request.specs.Heads.{caller_in};
ghost use Rattle.site_request.specs.Table.{table};
ghost use Rattle.site_request.specs.declared.asked.Asked.{Asked as TheAsked};

/// Two paths never claim one target: of any two patterns, none fits what the other fits.
pub fn no_target_fits_two_patterns()
    ensures { (target : List ℕ) → AllPairs (λ one other. Fits one.0 target → Fits other.0 target → ⊥) table }
{}

/// A text asks for at most one thing.
pub fn texts_have_one_meaning()
    ensures { (text : List ℕ) (asked other : TheAsked) → IsAsked text asked → IsAsked text other → asked ≡ other }
{}

/// A text asks for something, whatever it is: no text is left out.
pub fn every_text_has_a_meaning()
    ensures { (text : List ℕ) → (asked : TheAsked) × IsAsked text asked }
{}

/// A whole message is the caller's whom its `x-member` names, whatever else it says; what is no
/// message is nobody's.
pub fn messages_are_their_callers()
    ensures whole { (m : Message) → caller_of (message_of m) ≡ caller_in m }
    ensures broken { (f : WireFault) → caller_of (asked_of (Err f)).message ≡ None }
{}
