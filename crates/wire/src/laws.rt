//! What the definitions mean. No code runs here.
ghost use Rattle.std.specs.Prelude.{◌≡◌, ◌++◌, List, ℕ, Result};
ghost use Rattle.wire.specs.Cut.{Cut, Stop};
ghost use Rattle.wire.specs.Frame.{IsFrame, IsMessageAt};
ghost use Rattle.wire.specs.Message.{Message};
ghost use Rattle.wire.specs.declared.fault.WireFault.{WireFault};

/// A text is at most one thing: this message, or that fault.
pub fn texts_have_one_frame()
    ensures { (text : List ℕ) (frame other : Result Message WireFault) → IsFrame text frame → IsFrame text other → frame ≡ other }
{}

/// A text is a message, or it has a first fault: no text is left out, however long it is.
pub fn every_text_has_a_frame()
    ensures { (text : List ℕ) → (frame : Result Message WireFault) × IsFrame text frame }
{}

/// A message that is at the front of a stream is there whatever follows.
pub fn a_message_stays()
    ensures { (stream more : List ℕ) (message : Message) (rest : List ℕ)
        → IsMessageAt stream message rest → IsMessageAt (stream ++ more) message (rest ++ more) }
{}

/// A stream is one list of messages, one rest and one cause to stop: there is no other cut of it.
pub fn streams_have_one_cut()
    ensures { (stream : List ℕ) (most : ℕ) (messages others : List Message) (rest other : List ℕ) (stop end : Stop)
        → Cut stream most messages rest stop → Cut stream most others other end
        → (messages ≡ others) × (rest ≡ other) × (stop ≡ end) }
{}

/// A stream has a cut, however many messages it may be cut into.
pub fn every_stream_has_a_cut()
    ensures { (stream : List ℕ) (most : ℕ)
        → (messages : List Message) × (rest : List ℕ) × (stop : Stop) × Cut stream most messages rest stop }
{}
