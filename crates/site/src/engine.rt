//! The engine over a keep.
ghost use Rattle.std.specs.Prelude.{◌≡◌, ◌↔◌, [], ℕ, List, Ok, Err, IfErr, IfOk, IsOk, OnOk, false, true};
ghost use Rattle.std.specs.Borrow.{sem};
ghost use Rattle.std.specs.Cow.{cow_slice_items};
ghost use Rattle.house_rows.specs.Answers.{OverHistory, Reads};
ghost use Rattle.house_rows.specs.declared.settings.Settings.{Settings as TheSettings};
ghost use Rattle.house_rows.specs.History.{History};
ghost use Rattle.house_rows.specs.Keeping.{Faults};
ghost use Rattle.house_rows.specs.Tables.{tables_of};
ghost use Rattle.house_rows.specs.Taken.{IsUndamaged, PublicRowsFit};
ghost use Rattle.pages_json.specs.Words.{text_of};
ghost use Rattle.pages_record.specs.Record.{record_by, record_text};
ghost use Rattle.settle.specs.Zoned.{IsZoneOf};
ghost use Rattle.steps.specs.Table.{IsBandTable};
ghost use Rattle.site_request.specs.Asked.{IsAsked, asked_of};
ghost use Rattle.site_request.specs.declared.asked.Asked.{Asked as TheAsked};
ghost use Rattle.site_replies.specs.Texts.{fault_text};
ghost use Rattle.wire.specs.Frame.{IsFrame};
ghost use Rattle.wire.specs.declared.fault.WireFault.{WireFault};
ghost use Rattle.site.specs.Replies.{IsAppended, IsBegun, IsDown, IsReadable, IsReported, broken_text, without_keep, zone_of};
ghost use Rattle.site.specs.Histories.{AreBlank, Steps};
ghost use Rattle.site.specs.Lent.{LendsKeep};

use house_rows::{Counts, Keep, KeepFault, Settings};
use json::Scratch;
use pages_record::append_record;
use settle::Zone;
use site_acts::act;
use site_replies::{ReplyWriter, fault_text};
use site_request::{Routes, read_request};
use std::alloc::Global;
use std::borrow::CowSlice;
use wire::{Request, broken_frame, whole};

/// The bytes of a reply. Those that report that memory ran out or a failure take none.
pub type Reply = CowSlice<'static, u8>;

/// The engine over a keep.
#[derive(Drop)]
pub struct Site<K: Drop> {
    pub(crate) alloc: Global,
    routes: Routes,
    scratch: Scratch,
    pub(crate) writer: ReplyWriter,
    pub(crate) keep: K,
}

// The zone that is kept, beside bands that are a valid table, as those of all settings are.
fn read_zone(settings: &Settings) -> Result<Zone, KeepFault>
    ensures bands { IsBandTable settings.now.bands }
    ensures ok { IsOk result ↔ IsReadable settings.now.zone }
    ensures zone { IfOk result (IsZoneOf settings.now.zone) }
    ensures err { IfErr result (λ fault. fault ≡ KeepFault.Damaged) }
{
    // For the proof alone: the rows of a table are valid.
    let _ = settings.bands.rows();
    match Zone::read(settings.zone.as_str()) {
        Ok(zone) => Ok(zone),
        Err(_) => Err(KeepFault::Damaged),
    }
}

// The text of a fault is ready.
fn or_fault_text(acted: Result<(), KeepFault>, closes: bool) -> Result<(), &'static [u8]>
    ensures { IsReported closes acted result }
{
    match acted {
        Ok(()) => Ok(()),
        Err(fault) => Err(fault_text(fault, closes)),
    }
}

// The reply to a message for whose body memory was refused. A failed store goes first.
fn unread_text<K: Keep>(keep: &K, closes: bool) -> &'static [u8]
    ensures failed { K.is_failed keep.now ≡ true → result.now ≡ fault_text KeepFault.Store closes }
    ensures going { K.is_failed keep.now ≡ false → result.now ≡ fault_text KeepFault.Memory closes }
{
    match keep.settings() {
        Err(KeepFault::Store) => fault_text(KeepFault::Store, closes),
        _ => fault_text(KeepFault::Memory, closes),
    }
}

// Whether the first band table is the newest, there is no row to count, and the clock hasn't moved.
fn are_blank(newest: u32, counts: Counts, clock: u64) -> bool
    ensures { (result ≡ true) ↔ ((newest ≡ 1) × (counts.members ≡ 0) × (counts.categories ≡ 0)
        × (counts.items ≡ 0) × (clock ≡ 0)) }
{
    newest == 1 && counts.members == 0 && counts.categories == 0 && counts.items == 0 && clock == 0
}

// What the engine over a keep needs beside it: the zone that is kept, and the routes.
fn prepare<K: Keep>(alloc: Global, keep: &K) -> Result<(Zone, Routes), KeepFault>
    ensures zone { K.is_honest keep.now → IfOk result (λ parts.
        IsZoneOf (K.content keep.now).settings.zone parts.0) }
    ensures bands { K.is_honest keep.now → OnOk result
        (IsBandTable (K.content keep.now).settings.bands) }
    ensures faults { IsBegun result (K.is_honest keep.now) (K.is_failed keep.now)
        (K.content keep.now) }
{
    let zone = read_zone(keep.settings()?)?;
    let routes = Routes::new(alloc)?;
    Ok((zone, routes))
}

impl<K: Keep + Drop> Site<K> {
    /// The engine over a keep, by the zone that is kept, which is read once. After an error the keep is
    /// given back.
    ///
    /// Damaged is answered where the kept zone is no rule that can be read, and Memory where memory
    /// was refused.
    pub fn new(alloc: Global, keep: K) -> Result<Site<K>, (KeepFault, K)>
        ensures keep { IfOk result (λ site. site.keep ≡ keep) }
        ensures zone { K.is_honest keep → IfOk result (λ site.
            IsZoneOf (K.content keep).settings.zone (zone_of site)) }
        ensures bands { K.is_honest keep → OnOk result
            (IsBandTable (K.content keep).settings.bands) }
        ensures faults { IsBegun (without_keep result) (K.is_honest keep) (K.is_failed keep)
            (K.content keep) }
        ensures back { IfErr result (λ e. e.1 ≡ keep) }
    {
        match prepare(alloc, &keep) {
            Ok((zone, routes)) => Ok(Site {
                alloc,
                routes,
                scratch: Scratch::new(alloc),
                writer: ReplyWriter::new(alloc, zone),
                keep,
            }),
            Err(fault) => Err((fault, keep)),
        }
    }

    /// Gives the keep back.
    pub fn end(self) -> K
        ensures { result ≡ self.keep }
    {
        let Site { keep, .. } = self;
        keep
    }

    /// The keep, for look-ups that no message asks for. The site goes on over what is left there.
    pub fn keep_mut(&mut self) -> &mut K
        ensures* lends { sem 𝓛 (LendsKeep K.row self.entry result) }
        ensures keep { result.now ≡ self.old.keep }
    {
        &mut self.keep
    }

    /// Answers a message, after what the buffer holds. Where memory was refused or the keep fails,
    /// the buffer has what it had, and the reply is a text that is ready. Over a keep that has
    /// failed each command and each read is answered so, never that memory was refused.
    pub fn reply_into(
        &mut self,
        request: &Request<'_>,
        out: &mut Vec<u8>,
    ) -> Result<(), &'static [u8]>
        ensures step { (reply : List ℕ) × IsAppended result out.old.items out.new.items reply
            × Steps K.Keep (zone_of self.old)
            (asked_of (Ok request.now)) reply self.old.keep self.new.keep }
        ensures zone { zone_of self.new ≡ zone_of self.old }
    {
        match read_request(self.alloc, &self.routes, request, &mut self.scratch) {
            Ok(asked) => {
                let acted = act(&mut self.keep, &mut self.writer, &asked, out);
                or_fault_text(acted, asked.closes)
            }
            Err(refused) => Err(unread_text(&self.keep, refused.closes)),
        }
    }

    // Answers a message by bytes of its own.
    fn reply_whole(&mut self, request: &Request<'_>) -> Reply
        ensures step { Steps K.Keep (zone_of self.old)
            (asked_of (Ok request.now)) (cow_slice_items result) self.old.keep self.new.keep }
        ensures zone { zone_of self.new ≡ zone_of self.old }
    {
        let mut text = Vec::new(self.alloc);
        match self.reply_into(request, &mut text) {
            Ok(()) => CowSlice::Owned(text),
            Err(ready) => CowSlice::Borrowed(ready),
        }
    }

    /// Answers a text that is to be one message. The reply to a broken frame takes no memory.
    pub fn reply(&mut self, message: &[u8]) -> Reply
        ensures step { (asked : TheAsked) × IsAsked message.now asked
            × Steps K.Keep (zone_of self.old)
            asked (cow_slice_items result) self.old.keep self.new.keep }
        // Whatever the keep holds, and whatever memory is refused.
        ensures down { K.is_failed self.old.keep ≡ true → (asked : TheAsked)
            → IsAsked message.now asked → IsDown asked (cow_slice_items result) }
        ensures broken { (fault : WireFault) → IsFrame message.now (Err fault)
            → (cow_slice_items result ≡ broken_text fault) × (self.new.keep ≡ self.old.keep) }
        ensures zone { zone_of self.new ≡ zone_of self.old }
    {
        match whole(message) {
            Ok(request) => self.reply_whole(&request),
            Err(fault) => CowSlice::Borrowed(broken_frame(fault)),
        }
    }

    /// The public record. Damaged is answered only where a row that everybody may see doesn't fit.
    pub fn record(&mut self) -> Result<Vec<u8>, KeepFault>
        // Over any tables, of a history or not.
        ensures tables { K.is_honest self.new.keep → IfOk result (λ text.
            text.items ≡ text_of (record_by (K.content self.old.keep))) }
        ensures shown { K.is_honest self.new.keep → (settings : TheSettings) (h : History)
            → K.content self.old.keep ≡ tables_of settings h
            → IfOk result (λ text. text.items ≡ record_text settings h) }
        ensures faults { Faults result (K.is_honest self.new.keep) (K.is_failed self.new.keep)
            (K.content self.old.keep) }
        ensures undamaged { K.is_honest self.new.keep → PublicRowsFit (K.content self.old.keep)
            → IsUndamaged result }
        ensures read { Reads K.Keep self.old.keep self.new.keep }
        ensures zone { zone_of self.new ≡ zone_of self.old }
    {
        let mut text = Vec::new(self.alloc);
        append_record(self.alloc, &mut self.keep, &mut text)?;
        Ok(text)
    }

    /// Whether no command was accepted yet, but closes of an empty house at moment 0, which leave
    /// no trace: there is no later band table, no member, no category and no item, and the clock is
    /// at 0. Damaged is never answered, whatever the rows are.
    pub fn is_new(&mut self) -> Result<bool, KeepFault>
        ensures report { OverHistory K.Keep self.old.keep self.new.keep (λ settings h. IfOk result
            (λ new. (new ≡ true) ↔ (K.content self.old.keep ≡ tables_of settings []))) }
        // Over any tables, of a history or not.
        ensures tables { K.is_honest self.new.keep → IfOk result (λ new.
            (new ≡ true) ↔ AreBlank (K.content self.old.keep)) }
        ensures faults { Faults result (K.is_honest self.new.keep) (K.is_failed self.new.keep)
            (K.content self.old.keep) }
        ensures undamaged { K.is_honest self.new.keep → IsUndamaged result }
        ensures read { Reads K.Keep self.old.keep self.new.keep }
        ensures zone { zone_of self.new ≡ zone_of self.old }
    {
        let editions = self.keep.editions()?;
        let newest = editions.newest();
        let counts = self.keep.counts()?;
        let clock = self.keep.clock()?;
        Ok(are_blank(newest, counts, clock))
    }
}
