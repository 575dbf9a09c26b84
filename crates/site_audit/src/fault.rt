//! Why an audit finds nothing.
ghost use Rattle.std.specs.Prelude.{◌≡◌};
ghost use Rattle.site_audit.specs.Faults.{fault_of_keep, number_of};

use house_rows::KeepFault;
use thiserror::Error;

/// Why an audit finds nothing.
#[derive(Clone, Copy, Debug, Error)]
pub enum AuditFault {
    /// Memory was refused, or a message was answered 503.
    #[error("memory is wanted")]
    Memory,
    /// A keep failed, or a message was answered 500.
    #[error("the store failed")]
    Store,
    /// A house isn't new, or the two were set up differently.
    #[error("a house isn't new, or the settings differ")]
    NotNew,
}

impl From<KeepFault> for AuditFault {
    ghost from_gives = { λ fault report. report ≡ fault_of_keep fault };

    fn from(fault: KeepFault) -> AuditFault {
        match fault {
            KeepFault::Memory => AuditFault::Memory,
            KeepFault::Store | KeepFault::Damaged => AuditFault::Store,
        }
    }
}

impl AuditFault {
    /// The number of the fault, from 1 to 3.
    pub fn number(self) -> u32
        ensures { result ≡ number_of self }
    {
        match self {
            AuditFault::Memory => 1,
            AuditFault::Store => 2,
            AuditFault::NotNew => 3,
        }
    }
}
