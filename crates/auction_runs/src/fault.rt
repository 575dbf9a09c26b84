//! Why the program ends at a fault: the lines on standard error and the exit statuses.
ghost use Rattle.std.specs.Prelude.{◌≡◌, ◌≤◌, ◌↔◌, IfErr, IsErr, IsOk};
ghost use Rattle.auction_runs.specs.Faults.{fault_of_audit, fault_of_import, fault_of_keep};
ghost use Rattle.auction_runs.specs.Faults.{fault_of_serving, fault_of_settings, fault_of_settling};
ghost use Rattle.auction_runs.specs.Faults.{fault_of_statement};
ghost use Rattle.auction_runs.specs.Lines.{IsTold, side_name};

use crate::line::give_line;
use auction_words::SettingsFault;
use device::{Failure, Sink};
use house_rows::{KeepFault, Refusal};
use office::{ImportFault, StatementFault};
use settle::SettleFault;
use site_audit::AuditFault;
use site_serve::ServeFault;
use steps::BandsFault;

/// Why the program ends at a fault.
#[derive(Clone, Copy)]
pub enum TaskFault {
    /// Memory was refused.
    Memory,
    /// The database or its file failed.
    Store,
    /// The file is not a house of this version.
    Damaged,
    /// The band table has a fault, or its file can't be read.
    Bands(BandsFault),
    /// The zone is no rule.
    Zone,
    /// The input failed.
    Read,
    /// The output failed.
    Write,
    /// Listening or accepting failed.
    Socket,
    /// A text is no day.
    Date,
    /// A period ends before it begins.
    Order,
    /// Nobody has the member's number.
    Member,
    /// The house refuses what it was asked for.
    Refused(Refusal),
    /// A lot file has no head.
    Head,
    /// A record of a lot file has another number of fields than its head.
    Csv,
    /// The bytes of a file are no list of messages.
    Broken(Side),
}

/// A file of messages: one side of an audit, or the only one.
#[derive(Clone, Copy)]
pub enum Side {
    /// The first file.
    Left,
    /// The second file.
    Right,
    /// The only file.
    Only,
}

impl Side {
    /// The word for it on the command line.
    pub fn name(self) -> &'static str
        ensures { result.now ≡ side_name self }
    {
        match self {
            Side::Left => "LEFT",
            Side::Right => "RIGHT",
            Side::Only => "LIST",
        }
    }
}

impl From<KeepFault> for TaskFault {
    ghost from_gives = { λ fault report. report ≡ fault_of_keep fault };

    fn from(fault: KeepFault) -> TaskFault {
        match fault {
            KeepFault::Memory => TaskFault::Memory,
            KeepFault::Store => TaskFault::Store,
            KeepFault::Damaged => TaskFault::Damaged,
        }
    }
}

impl From<SettingsFault> for TaskFault {
    ghost from_gives = { λ fault report. report ≡ fault_of_settings fault };

    fn from(fault: SettingsFault) -> TaskFault {
        match fault {
            SettingsFault::Bands(fault) => TaskFault::Bands(fault),
            SettingsFault::Zone => TaskFault::Zone,
            SettingsFault::Memory => TaskFault::Memory,
        }
    }
}

impl From<ServeFault> for TaskFault {
    ghost from_gives = { λ fault report. report ≡ fault_of_serving fault };

    fn from(fault: ServeFault) -> TaskFault {
        match fault {
            ServeFault::Read => TaskFault::Read,
            ServeFault::Write => TaskFault::Write,
            ServeFault::Memory => TaskFault::Memory,
        }
    }
}

impl From<ImportFault> for TaskFault {
    ghost from_gives = { λ fault report. report ≡ fault_of_import fault };

    fn from(fault: ImportFault) -> TaskFault {
        match fault {
            ImportFault::Memory => TaskFault::Memory,
            ImportFault::Store => TaskFault::Store,
            ImportFault::Damaged => TaskFault::Damaged,
            ImportFault::Member => TaskFault::Member,
            ImportFault::Head => TaskFault::Head,
            ImportFault::Csv => TaskFault::Csv,
            ImportFault::Read => TaskFault::Read,
            ImportFault::Write => TaskFault::Write,
        }
    }
}

impl From<StatementFault> for TaskFault {
    ghost from_gives = { λ fault report. report ≡ fault_of_statement fault };

    fn from(fault: StatementFault) -> TaskFault {
        match fault {
            StatementFault::Memory => TaskFault::Memory,
            StatementFault::Store => TaskFault::Store,
            StatementFault::Damaged => TaskFault::Damaged,
            StatementFault::Order => TaskFault::Order,
            StatementFault::Member => TaskFault::Member,
        }
    }
}

impl From<SettleFault> for TaskFault {
    ghost from_gives = { λ fault report. report ≡ fault_of_settling fault };

    fn from(fault: SettleFault) -> TaskFault {
        match fault {
            SettleFault::Date => TaskFault::Date,
            SettleFault::Order => TaskFault::Order,
            SettleFault::Zone => TaskFault::Zone,
            SettleFault::Memory => TaskFault::Memory,
            SettleFault::Write => TaskFault::Write,
        }
    }
}

impl From<AuditFault> for TaskFault {
    ghost from_gives = { λ fault report. report ≡ fault_of_audit fault };

    // A house that isn't new is none that the program made.
    fn from(fault: AuditFault) -> TaskFault {
        match fault {
            AuditFault::Memory => TaskFault::Memory,
            AuditFault::Store => TaskFault::Store,
            AuditFault::NotNew => TaskFault::Damaged,
        }
    }
}

// Hands on the line of a fault.
fn write_fault<E: Sink>(errors: &mut E, fault: TaskFault) -> Result<(), Failure>
    ensures told { IsTold E.Sink errors.old errors.new fault }
{
    give_line(errors, fault)?;
    errors.flush()
}

/// Ends a run, and gives its exit status: 0, or 1 for a fault, whose line is handed on.
pub fn finish_run<E: Sink>(errors: &mut E, outcome: Result<(), TaskFault>) -> u8
    ensures done { (result ≡ 0) ↔ IsOk outcome }
    ensures fault { (result ≡ 1) ↔ IsErr outcome }
    ensures quiet { IsOk outcome → errors.new ≡ errors.old }
    ensures told { IfErr outcome (IsTold E.Sink errors.old errors.new) }
    ensures within { result ≤ 1 }
{
    match outcome {
        Ok(()) => 0,
        Err(fault) => {
            // Where standard error fails too there is nobody left to report to.
            let _ = write_fault(errors, fault);
            1
        }
    }
}
