//! The texts that a client of the library can meet: each form of report, each fault by its code and
//! its text, and each ending of the program with its status and its message. A report that ran out
//! of memory is left out, since only a refusal in its maker makes it.

mod faults;
mod forms;

use batch_cli::{BatchFault, Ending, Summary};
use memory::{OutOfMemory, with_capacity};
use std::io::{self, ErrorKind, Print};

// So large that memory for 2^27 of them is refused. Only a refused allocation makes an
// `OutOfMemory`.
type TooLarge = [u64; 1 << 18];

/// Prints each of these texts.
pub fn print_texts(rt: &(impl Print + AllocGlobal)) -> io::Result<()> {
    let Err(refused) = with_capacity::<TooLarge>(rt.alloc(), 1 << 27) else {
        return Err(ErrorKind::Other.into());
    };
    forms::print(rt, refused)?;
    faults::print(rt, refused)?;
    print_endings(rt, refused)
}

// Prints each ending of the program with its status and its message, which is quoted.
fn print_endings(rt: &impl Print, refused: OutOfMemory) -> io::Result<()> {
    rt.println("\n# Endings of the program")?;
    for ending in [
        Ending::Ran(counted(0, 0, 0, 0)),
        Ending::Ran(counted(1, 1, 0, 0)),
        Ending::Ran(counted(1, 1, 1, 0)),
        Ending::Ran(counted(1, 1, 0, 1)),
        Ending::NoTexts,
        Ending::NoMemoryToStart,
        Ending::NoMemory(refused),
        Ending::Answered(0),
        Ending::Answered(5),
        Ending::Shown,
        Ending::Faulted(BatchFault::Read),
        Ending::Faulted(BatchFault::Write),
        Ending::Faulted(BatchFault::CertificateRead),
        Ending::Faulted(BatchFault::CertificateMemory(refused)),
        Ending::Faulted(BatchFault::CertificateWrite),
    ] {
        let status = ending.status();
        let message = ending.message();
        println!(rt; "{ending:?}: {status} {message:?}")?;
    }
    Ok(())
}

fn counted(optimal: u64, unsolvable: u64, bounded: u64, refused: u64) -> Summary {
    Summary {
        optimal,
        unsolvable,
        bounded,
        refused,
    }
}
