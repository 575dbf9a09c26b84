//! `replay`: the replies to the messages of an input, over a new house.
ghost use Rattle.auction_runs.specs.Lines.{IsReported};
ghost use Rattle.std.specs.Prelude.{◌≡◌, ◌≤◌, ◌++◌, ◌∷◌, [], false, true, Err, IfErr, IfSome, IsErr, OnErr, OnOk};
ghost use Rattle.std.specs.Io.KnownBytes.{Appends};
ghost use Rattle.device.specs.Given.{AppendsBeginning};
ghost use Rattle.auction_runs.specs.Faults.{IsOfKeep, IsOfReplay, IsOfReplayed};
ghost use Rattle.auction_runs.specs.Replayed.{HasRecorded, HasReplayed, IsNotRecorded, IsRecorded, IsRecordedPart};
ghost use Rattle.auction_runs.specs.Replayed.{IsReplayFault, IsReplayedPart, IsReplyFault};
ghost use Rattle.auction_runs.specs.Setup.{IsNotSetUp, IsSetUp};
ghost use Rattle.settle.specs.Zoned.{IsZoneOf};
ghost use Rattle.site.specs.Replies.{zone_of};
ghost use Rattle.site.specs.Histories.{Steps};
ghost use Rattle.site_serve.specs.Serving.{IsFlushed, keep_of};

use crate::fault::{TaskFault, finish_run};
use crate::serve::site_over;
use crate::setup::set_up;
use auction_words::Replay;
use device::{Failure, Sink, Source, give_all};
use house_rows::Keep;
use site::Site;
use site_serve::serve;
use std::alloc::Global;

// Sets the house up, where that is asked for.
fn prepare<K: Keep + Drop>(site: &mut Site<K>, asked: Replay) -> Result<(), TaskFault>
    ensures set_up { OnOk result
        (IsSetUp (Steps K.Keep (zone_of site.old))
        asked.preset (keep_of site.old) (keep_of site.new)) }
    ensures fault { IfErr result IsOfKeep }
    ensures why { IfErr result (λ fault. IsNotSetUp (Steps K.Keep (zone_of site.old))
        asked.preset (keep_of site.old) fault (keep_of site.new)) }
    ensures zone { zone_of site.new ≡ zone_of site.old }
{
    if asked.preset { set_up(site) } else { Ok(()) }
}

// Gives the sink a record and a newline.
fn give_record<W: Sink>(sink: &mut W, text: &[u8]) -> Result<(), Failure>
    ensures whole { OnOk result
        (Appends (W.taken sink.old) (W.taken sink.new) (text.now ++ 10 ∷ [])) }
    ensures part { AppendsBeginning (W.taken sink.old) (W.taken sink.new) (text.now ++ 10 ∷ []) }
    ensures handed_on { OnOk result (W.handed_on sink.new ≡ W.taken sink.new) }
    ensures failed { IsErr result → W.has_failed sink.new ≡ true }
{
    give_all(sink, text)?;
    give_all(sink, b"\n")?;
    sink.flush()
}

// Appends the public record and a newline.
fn append_record<W: Sink, K: Keep + Drop>(sink: &mut W, site: &mut Site<K>) -> Result<(), TaskFault>
    ensures recorded { OnOk result
        (HasRecorded K.content K.is_failed K.is_honest K.may_leave
        (W.taken sink.old) (W.taken sink.new) (keep_of site.old) (keep_of site.new)) }
    ensures part { OnErr result (IsRecordedPart K.Keep
        (W.taken sink.old) (W.taken sink.new) (keep_of site.old)) }
    ensures handed_on { OnOk result (W.handed_on sink.new ≡ W.taken sink.new) }
    ensures fault { IfErr result (IsOfReplay false (W.has_failed sink.new)) }
    ensures cause { IfErr result
        (IsNotRecorded K.Keep true (W.taken sink.old) (W.taken sink.new)
        (keep_of site.old) (keep_of site.new)) }
{
    let record = site.record()?;
    match give_record(sink, record.as_slice()) {
        Ok(()) => Ok(()),
        Err(_) => Err(TaskFault::Write),
    }
}

// Appends the record, where that is asked for.
fn finish<W: Sink, K: Keep + Drop>(
    sink: &mut W,
    site: &mut Site<K>,
    asked: Replay,
) -> Result<(), TaskFault>
    ensures recorded { OnOk result
        (IsRecorded K.content K.is_failed K.is_honest K.may_leave asked.record
        (W.taken sink.old) (W.taken sink.new) (keep_of site.old) (keep_of site.new)) }
    ensures part { OnErr result ((asked.record ≡ true) × IsRecordedPart K.Keep
        (W.taken sink.old) (W.taken sink.new) (keep_of site.old)) }
    ensures handed_on { OnOk result (IsFlushed W.handed_on W.taken sink.old sink.new) }
    ensures fault { IfErr result (IsOfReplay false (W.has_failed sink.new)) }
    ensures cause { IfErr result
        (IsNotRecorded K.Keep asked.record (W.taken sink.old) (W.taken sink.new)
        (keep_of site.old) (keep_of site.new)) }
{
    if asked.record {
        append_record(sink, site)
    } else {
        Ok(())
    }
}

// Answers all messages of the source over a site, whose zone is that of its keep.
fn reply_over<R: Source, W: Sink, K: Keep + Drop>(
    alloc: Global,
    source: &mut R,
    sink: &mut W,
    site: &mut Site<K>,
    asked: Replay,
) -> Result<(), TaskFault>
    ensures replayed { (K.is_honest (keep_of site.old)
        → IsZoneOf (K.content (keep_of site.old)).settings.zone (zone_of site.old))
        → OnOk result (IfSome (R.left source.old) (λ stream.
        HasReplayed K.content K.is_failed K.is_honest K.may_leave asked stream
        (W.taken sink.old) (W.taken sink.new) (keep_of site.old))) }
    ensures part { (K.is_honest (keep_of site.old)
        → IsZoneOf (K.content (keep_of site.old)).settings.zone (zone_of site.old))
        → OnErr result (IsReplayedPart K.Keep asked (R.left source.old) (R.left source.new)
        (W.taken sink.old) (W.taken sink.new) (keep_of site.old)) }
    ensures handed_on { OnOk result (IsFlushed W.handed_on W.taken sink.old sink.new) }
    ensures fault { IfErr result
        (IsOfReplay (R.has_failed source.new) (W.has_failed sink.new)) }
    ensures waits { result ≡ Err TaskFault.Read
        → IsFlushed W.handed_on W.taken sink.old sink.new }
    ensures cause { IfErr result (IsReplyFault K.Keep asked (zone_of site.old)
        (R.left source.old) (R.left source.new) (W.taken sink.old) (W.taken sink.new)
        (keep_of site.old) (keep_of site.new)) }
{
    prepare(site, asked)?;
    serve(alloc, source, sink, site, u64::MAX)?;
    finish(sink, site, asked)
}

// Answers all messages of the source.
fn reply_all<R: Source, W: Sink, K: Keep + Drop>(
    alloc: Global,
    source: &mut R,
    sink: &mut W,
    keep: K,
    asked: Replay,
) -> Result<(), TaskFault>
    ensures replayed { OnOk result (IfSome (R.left source.old) (λ stream.
        HasReplayed K.content K.is_failed K.is_honest K.may_leave asked stream
        (W.taken sink.old) (W.taken sink.new) keep)) }
    ensures part { OnErr result (IsReplayedPart K.Keep asked (R.left source.old)
        (R.left source.new) (W.taken sink.old) (W.taken sink.new) keep) }
    ensures handed_on { OnOk result (IsFlushed W.handed_on W.taken sink.old sink.new) }
    ensures fault { IfErr result
        (IsOfReplay (R.has_failed source.new) (W.has_failed sink.new)) }
    ensures waits { result ≡ Err TaskFault.Read
        → IsFlushed W.handed_on W.taken sink.old sink.new }
    ensures cause { IfErr result (IsReplayFault K.Keep asked (R.left source.old)
        (R.left source.new) (W.taken sink.old) (W.taken sink.new) keep) }
{
    let mut site = site_over(alloc, keep)?;
    reply_over(alloc, source, sink, &mut site, asked)
}

/// Answers all messages of a source over a new house, and gives the exit status. A fault is written
/// in its line on `errors`. However the stream ends, the record that was asked for follows the last
/// reply; where a device fails there is none, or a beginning of it. What was written before a fault
/// goes with it: whole replies where the source failed, which the sink has handed on; a beginning
/// of a reply or of the record, after those before it, where the sink did; and nothing of the record
/// where the keep gave none.
pub fn replay_run<R: Source, W: Sink, K: Keep + Drop, E: Sink>(
    alloc: Global,
    source: &mut R,
    sink: &mut W,
    errors: &mut E,
    keep: K,
    asked: Replay,
) -> u8
    ensures replayed { result ≡ 0 → IfSome (R.left source.old) (λ stream.
        HasReplayed K.content K.is_failed K.is_honest K.may_leave asked stream
        (W.taken sink.old) (W.taken sink.new) keep) }
    ensures part { result ≡ 1 → IsReplayedPart K.Keep asked (R.left source.old)
        (R.left source.new) (W.taken sink.old) (W.taken sink.new) keep }
    ensures handed_on { result ≡ 0 → IsFlushed W.handed_on W.taken sink.old sink.new }
    ensures reported { IsReported E.Sink
        (λ fault. IsOfReplayed (R.has_failed source.new) (W.has_failed sink.new)
        (IsFlushed W.handed_on W.taken sink.old sink.new) fault
        × IsReplayFault K.Keep asked (R.left source.old) (R.left source.new)
        (W.taken sink.old) (W.taken sink.new) keep fault)
        errors.old errors.new result }
    ensures within { result ≤ 1 }
{
    finish_run(errors, reply_all(alloc, source, sink, keep, asked))
}
