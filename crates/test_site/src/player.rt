//! A house in memory, and what becomes of a message to it.
use crate::bodies::{page_text, record_text};
use crate::fault::SiteFault;
use crate::fixed_bytes::FixedBytes;
use house::decide;
use house_rows::{Command, Keep, Message, Rate, Settings, Text};
use settle::Zone;
use site_request::Asked;
use std::alloc::Global;
use steps::Bands;
use store_list::ListKeep;

/// A house in memory.
#[derive(Drop)]
pub(crate) struct House {
    zone: Zone,
    keep: ListKeep,
}

/// The example bands, a fee of a tenth, and that zone.
pub(crate) fn settings(alloc: Global, zone: &str) -> Result<Settings, SiteFault> {
    let rate = Rate::new(1_000).ok_or(SiteFault::Script)?;
    let zone = Text::copy_of(alloc, zone)?;
    let Ok(bands) = Bands::example(alloc) else {
        return Err(SiteFault::Memory);
    };
    Ok(Settings { bands, rate, zone })
}

// Makes the change of a command, which is accepted.
fn change<K: Keep>(
    keep: &mut K,
    moment: u64,
    caller: u64,
    command: &Command,
) -> Result<(), SiteFault> {
    // The fault is matched, since a `?` on what holds a change isn't covered by the borrow check.
    match decide(keep, moment, caller, command) {
        Err(fault) => Err(fault.into()),
        Ok(Err(_)) => Err(SiteFault::Script),
        Ok(Ok(change)) => match keep.apply(&change) {
            Ok(()) => Ok(()),
            Err(fault) => Err(fault.into()),
        },
    }
}

impl House {
    /// A house without members.
    pub(crate) fn new(alloc: Global, zone: &str) -> Result<House, SiteFault> {
        let keep = ListKeep::create(alloc, &FixedBytes, settings(alloc, zone)?)?;
        match Zone::read(zone) {
            Ok(zone) => Ok(House { zone, keep }),
            Err(_) => Err(SiteFault::Script),
        }
    }

    /// Becomes a house without members.
    pub(crate) fn renew(&mut self, alloc: Global, zone: &str) -> Result<(), SiteFault> {
        *self = House::new(alloc, zone)?;
        Ok(())
    }

    /// Makes the change of what is asked, which is a command that is accepted, or shows what is to
    /// be.
    pub(crate) fn reply(
        &mut self,
        alloc: Global,
        asked: &Asked,
    ) -> Result<Option<Vec<u8>>, SiteFault> {
        match &asked.message {
            Message::Write {
                moment,
                caller,
                command,
            } => {
                change(&mut self.keep, *moment, *caller, command)?;
                Ok(None)
            }
            Message::Read { caller, query } => {
                let page = page_text(alloc, &mut self.keep, &self.zone, *caller, query)?;
                Ok(Some(page))
            }
            Message::Broken { fault, .. } => Ok(Some(fault.body().as_bytes().to_vec(alloc)?)),
        }
    }

    /// The public record.
    pub(crate) fn record(&mut self, alloc: Global) -> Result<Option<Vec<u8>>, SiteFault> {
        Ok(Some(record_text(alloc, &mut self.keep)?))
    }
}
