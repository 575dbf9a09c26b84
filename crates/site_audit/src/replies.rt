//! Replies that are neither 500 nor 503.
ghost use Rattle.std.specs.Prelude.{◌≡◌, true, length, IsErrOf};
ghost use Rattle.std.specs.Cow.{cow_slice_items};
ghost use Rattle.std.specs.Str.{bytes_eq};
ghost use Rattle.house_rows.specs.declared.settings.Settings.{Settings as TheSettings};
ghost use Rattle.house_rows.specs.History.{History};
ghost use Rattle.house_rows.specs.Tables.{tables_of};
ghost use Rattle.house_rows.specs.Verdict.{IsHistory};
ghost use Rattle.site.specs.Replies.{zone_of};
ghost use Rattle.site_request.specs.Asked.{IsAsked};
ghost use Rattle.site_request.specs.declared.asked.Asked.{Asked as TheAsked};
ghost use Rattle.site_audit.specs.Places.{IsJudged, IsReplyReported, IsUsed, keep_of};
ghost use Rattle.site_replies.specs.Texts.{digits_in};

use crate::fault::AuditFault;
use house_rows::Keep;
use site::{Reply, Site};

// Whether a reply has a status. Its digits come after `HTTP/1.1 `.
#[tactic(auto, unfolding(site_replies::specs::Texts::digits_in))]
fn has_status(reply: &[u8], digits: &[u8]) -> bool
    requires { length digits.now ≡ 3 }
    ensures { result ≡ bytes_eq (digits_in reply.now) digits.now }
{
    match reply.get(9..12) {
        Some(report) => report == digits,
        None => false,
    }
}

// A reply that is neither 500 nor 503.
fn check_status(reply: Reply) -> Result<Reply, AuditFault>
    ensures judged { IsJudged cow_slice_items reply.entry result }
    ensures never { ¬ (IsErrOf result AuditFault.NotNew) }
{
    if has_status(&reply, b"503") {
        return Err(AuditFault::Memory);
    }
    if has_status(&reply, b"500") {
        return Err(AuditFault::Store);
    }
    Ok(reply)
}

/// Answers a message, where memory and store serve.
pub(crate) fn reply<K: Keep + Drop>(site: &mut Site<K>, text: &[u8]) -> Result<Reply, AuditFault>
    ensures report { K.is_honest (keep_of site.new) → (settings : TheSettings) (h : History)
        → IsHistory settings h → K.content (keep_of site.old) ≡ tables_of settings h
        → (asked : TheAsked) → IsAsked text.now asked
        → IsReplyReported K.content K.is_failed cow_slice_items settings (zone_of site.old) h asked
        (keep_of site.new) result }
    ensures never { ¬ (IsErrOf result AuditFault.NotNew) }
    ensures used { IsUsed K.is_failed K.is_honest site.old site.new }
{
    check_status(site.reply(text))
}
