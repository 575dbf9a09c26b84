//! The house that `--preset` begins with.
ghost use Rattle.std.specs.Prelude.{◌≡◌, true, IfErr, OnOk};
ghost use Rattle.auction_runs.specs.Faults.{IsOfKeep};
ghost use Rattle.auction_runs.specs.Setup.{IsCreated, IsNotSetUp, IsSetUp, IsTaken, IsUntaken, Refuses};
ghost use Rattle.site.specs.Replies.{zone_of};
ghost use Rattle.site.specs.Histories.{Steps};
ghost use Rattle.site_serve.specs.Serving.{keep_of};

use crate::fault::TaskFault;
use house_rows::{Keep, KeepFault};
use site::Site;
use site_replies::fault_text;

pub(crate) const ANA: &str =
    "POST /members HTTP/1.1\r\nhost: h\r\nx-member: 0\r\nx-moment: 1000\r\n\
    content-length: 14\r\n\r\n{\"name\":\"Ana\"}";

pub(crate) const BEN: &str =
    "POST /members HTTP/1.1\r\nhost: h\r\nx-member: 0\r\nx-moment: 1000\r\n\
    content-length: 14\r\n\r\n{\"name\":\"Ben\"}";

pub(crate) const CID: &str =
    "POST /members HTTP/1.1\r\nhost: h\r\nx-member: 0\r\nx-moment: 1000\r\n\
    content-length: 14\r\n\r\n{\"name\":\"Cid\"}";

pub(crate) const BOOKS: &str =
    "POST /categories HTTP/1.1\r\nhost: h\r\nx-member: 0\r\nx-moment: 1000\r\n\
    content-length: 16\r\n\r\n{\"name\":\"Books\"}";

pub(crate) const ATLAS: &str =
    "POST /items HTTP/1.1\r\nhost: h\r\nx-member: 1\r\nx-moment: 1000\r\n\
    content-length: 74\r\n\r\n\
    {\"category\":1,\"end\":5000,\"lot\":\"A1\",\"start\":500,\"text\":\"\",\"title\":\"Atlas\"}";

// Whether a message of the setup was taken, by its reply.
fn check_reply(reply: &[u8]) -> Result<(), TaskFault>
    ensures taken { OnOk result (IsCreated reply.now) }
    ensures fault { IfErr result IsOfKeep }
    ensures why { IfErr result (Refuses reply.now) }
{
    if reply.starts_with(b"HTTP/1.1 201 ") {
        Ok(())
    } else if reply == fault_text(KeepFault::Memory, false) {
        Err(TaskFault::Memory)
    } else if reply == fault_text(KeepFault::Store, false) {
        Err(TaskFault::Store)
    } else {
        Err(TaskFault::Damaged)
    }
}

// Has a message of the setup answered, which has to be taken.
fn send<K: Keep + Drop>(site: &mut Site<K>, message: &str) -> Result<(), TaskFault>
    ensures taken { OnOk result
        (IsTaken (Steps K.Keep (zone_of site.old))
        (keep_of site.old) message.now (keep_of site.new)) }
    ensures fault { IfErr result IsOfKeep }
    ensures why { IfErr result (λ fault. IsUntaken (Steps K.Keep (zone_of site.old))
        (keep_of site.old) message.now fault (keep_of site.new)) }
    ensures zone { zone_of site.new ≡ zone_of site.old }
{
    check_reply(&site.reply(message.as_bytes()))
}

/// Sets a new house up: three members, a category and an item of the first member.
///
/// Memory and Store are answered where the reply to one of its messages is the text of that fault,
/// and Damaged where it says otherwise that the message was not taken, as where the house isn't new.
/// The messages after it are not sent.
pub fn set_up<K: Keep + Drop>(site: &mut Site<K>) -> Result<(), TaskFault>
    ensures taken { OnOk result
        (IsSetUp (Steps K.Keep (zone_of site.old))
        true (keep_of site.old) (keep_of site.new)) }
    ensures fault { IfErr result IsOfKeep }
    ensures why { IfErr result (λ fault. IsNotSetUp (Steps K.Keep (zone_of site.old))
        true (keep_of site.old) fault (keep_of site.new)) }
    ensures zone { zone_of site.new ≡ zone_of site.old }
{
    send(site, ANA)?;
    send(site, BEN)?;
    send(site, CID)?;
    send(site, BOOKS)?;
    send(site, ATLAS)
}
