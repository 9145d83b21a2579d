//! Why a run that writes or checks a certificate ends early.

ghost use Rattle.std.specs.Prelude.{◌≡◌};
ghost use Rattle.certificate_runs.specs.Faults.{certify_code, check_code, upgrade_code};

use batch_runs::NoReport;
use memory::OutOfMemory;
use thiserror::Error;

/// Why a run that writes a certificate ended early.
#[derive(Clone, Copy, Debug, PartialEq, Eq, Error)]
pub enum CertifyFault {
    /// B1
    #[error("the input cannot be read")]
    Read,
    /// B2
    #[error("the output cannot be written")]
    Write,
    /// B3
    #[error("no memory for a report")]
    Memory(NoReport),
    /// B3
    #[error("no memory for the groups of a certificate")]
    GroupsMemory(OutOfMemory),
    /// F8
    #[error("the certificate cannot be written")]
    CertificateWrite,
}

impl CertifyFault {
    /// The code that the fault is reported by: `B1` to `B3`, `F8`.
    pub fn code(self) -> &'static str
        ensures { result.now ≡ certify_code self }
    {
        match self {
            CertifyFault::Read => "B1",
            CertifyFault::Write => "B2",
            CertifyFault::Memory(_) | CertifyFault::GroupsMemory(_) => "B3",
            CertifyFault::CertificateWrite => "F8",
        }
    }
}

/// Why a run that checks or draws a certificate ended early.
#[derive(Clone, Copy, Debug, PartialEq, Eq, Error)]
pub enum CheckFault {
    /// F6
    #[error("the certificate cannot be read")]
    CertificateRead,
    /// F7
    #[error("no memory for the certificate, its tables or its drawing")]
    CertificateMemory(OutOfMemory),
    /// B2
    #[error("the output cannot be written")]
    Write,
    /// B3
    #[error("no memory for a report")]
    Memory(NoReport),
}

impl CheckFault {
    /// The code that the fault is reported by: `F6`, `F7`, `B2`, `B3`.
    pub fn code(self) -> &'static str
        ensures { result.now ≡ check_code self }
    {
        match self {
            CheckFault::CertificateRead => "F6",
            CheckFault::CertificateMemory(_) => "F7",
            CheckFault::Write => "B2",
            CheckFault::Memory(_) => "B3",
        }
    }
}

/// Why a run that upgrades a certificate ended early.
#[derive(Clone, Copy, Debug, PartialEq, Eq, Error)]
pub enum UpgradeFault {
    /// F6
    #[error("the certificate cannot be read")]
    CertificateRead,
    /// F7
    #[error("no memory for the certificate")]
    CertificateMemory(OutOfMemory),
    /// F8
    #[error("the certificate cannot be written")]
    CertificateWrite,
}

impl UpgradeFault {
    /// The code that the fault is reported by: `F6` to `F8`.
    pub fn code(self) -> &'static str
        ensures { result.now ≡ upgrade_code self }
    {
        match self {
            UpgradeFault::CertificateRead => "F6",
            UpgradeFault::CertificateMemory(_) => "F7",
            UpgradeFault::CertificateWrite => "F8",
        }
    }
}
