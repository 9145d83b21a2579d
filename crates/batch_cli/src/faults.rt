//! Why a run of any kind ends early.

ghost use Rattle.std.specs.Prelude.{◌≡◌};
ghost use Rattle.batch_cli.specs.Faults.{batch_code};

use batch_runs::{LinesFault, NoReport};
use certificate_runs::{CertifyFault, CheckFault, UpgradeFault};
use memory::OutOfMemory;
use thiserror::Error;

/// Why a run of any kind ended early.
#[derive(Clone, Copy, Debug, PartialEq, Eq, Error)]
pub enum BatchFault {
    /// B1
    #[error("the input cannot be read")]
    Read,
    /// B2
    #[error("the output cannot be written")]
    Write,
    /// B3
    #[error("no memory for a report")]
    Memory(NoReport),
    /// B3
    #[error("no memory for the groups of a certificate")]
    GroupsMemory(OutOfMemory),
    /// F6
    #[error("the certificate cannot be read")]
    CertificateRead,
    /// F7
    #[error("no memory for the certificate")]
    CertificateMemory(OutOfMemory),
    /// F8
    #[error("the certificate cannot be written")]
    CertificateWrite,
}

impl BatchFault {
    /// The code that the fault is reported by: `B1` to `B3`, `F6` to `F8`.
    pub fn code(self) -> &'static str
        ensures { result.now ≡ batch_code self }
    {
        match self {
            BatchFault::Read => "B1",
            BatchFault::Write => "B2",
            BatchFault::Memory(_) | BatchFault::GroupsMemory(_) => "B3",
            BatchFault::CertificateRead => "F6",
            BatchFault::CertificateMemory(_) => "F7",
            BatchFault::CertificateWrite => "F8",
        }
    }
}

impl From<LinesFault> for BatchFault {
    ghost use Rattle.std.specs.Prelude.{◌≡◌};
    ghost use Rattle.batch_runs.specs.Faults.{lines_code};
    ghost use Rattle.batch_cli.specs.Faults.{batch_code, of_lines};

    ghost from_gives = { λ fault sum. sum ≡ of_lines fault };

    fn from(fault: LinesFault) -> BatchFault
        ensures given { result ≡ of_lines fault }
        ensures code { batch_code result ≡ lines_code fault }
    {
        match fault {
            LinesFault::Read => BatchFault::Read,
            LinesFault::Write => BatchFault::Write,
            LinesFault::Memory(lacking) => BatchFault::Memory(lacking),
        }
    }
}

impl From<CertifyFault> for BatchFault {
    ghost use Rattle.std.specs.Prelude.{◌≡◌};
    ghost use Rattle.certificate_runs.specs.Faults.{certify_code};
    ghost use Rattle.batch_cli.specs.Faults.{batch_code, of_certify};

    ghost from_gives = { λ fault sum. sum ≡ of_certify fault };

    fn from(fault: CertifyFault) -> BatchFault
        ensures given { result ≡ of_certify fault }
        ensures code { batch_code result ≡ certify_code fault }
    {
        match fault {
            CertifyFault::Read => BatchFault::Read,
            CertifyFault::Write => BatchFault::Write,
            CertifyFault::Memory(lacking) => BatchFault::Memory(lacking),
            CertifyFault::GroupsMemory(wanting) => BatchFault::GroupsMemory(wanting),
            CertifyFault::CertificateWrite => BatchFault::CertificateWrite,
        }
    }
}

impl From<CheckFault> for BatchFault {
    ghost use Rattle.std.specs.Prelude.{◌≡◌};
    ghost use Rattle.certificate_runs.specs.Faults.{check_code};
    ghost use Rattle.batch_cli.specs.Faults.{batch_code, of_check};

    ghost from_gives = { λ fault sum. sum ≡ of_check fault };

    fn from(fault: CheckFault) -> BatchFault
        ensures given { result ≡ of_check fault }
        ensures code { batch_code result ≡ check_code fault }
    {
        match fault {
            CheckFault::CertificateRead => BatchFault::CertificateRead,
            CheckFault::CertificateMemory(refused) => BatchFault::CertificateMemory(refused),
            CheckFault::Write => BatchFault::Write,
            CheckFault::Memory(lacking) => BatchFault::Memory(lacking),
        }
    }
}

impl From<UpgradeFault> for BatchFault {
    ghost use Rattle.std.specs.Prelude.{◌≡◌};
    ghost use Rattle.certificate_runs.specs.Faults.{upgrade_code};
    ghost use Rattle.batch_cli.specs.Faults.{batch_code, of_upgrade};

    ghost from_gives = { λ fault sum. sum ≡ of_upgrade fault };

    fn from(fault: UpgradeFault) -> BatchFault
        ensures given { result ≡ of_upgrade fault }
        ensures code { batch_code result ≡ upgrade_code fault }
    {
        match fault {
            UpgradeFault::CertificateRead => BatchFault::CertificateRead,
            UpgradeFault::CertificateMemory(refused) => BatchFault::CertificateMemory(refused),
            UpgradeFault::CertificateWrite => BatchFault::CertificateWrite,
        }
    }
}
