//! What is answered where there is no design, no network of an order, no written state, or no certificate.
ghost use Rattle.std.specs.Prelude.{◌≡◌};
ghost use Rattle.bt_print.specs.Replies.{design_told, gen_told, state_told, steps_told};

use crate::answer::{Answer, Brief};
use bt_cert::CertFault;
use bt_designs::{DesignFault, Refusal};
use bt_flow::StateFault;
use bt_gen::GenFault;
use bt_io::ReadAll;
use std::alloc::AllocError;

/// The answer where there is no design.
pub fn refused(fault: DesignFault) -> Result<Answer, AllocError>
    ensures { result ≡ design_told fault }
{
    match fault {
        DesignFault::Refused(refusal) => Ok(Answer::Brief(Brief::Refused(refusal))),
        DesignFault::Memory => Err(AllocError),
    }
}

/// The answer where there is no network of the order.
pub fn ungenerated(fault: GenFault) -> Result<Answer, AllocError>
    ensures { result ≡ gen_told fault }
{
    match fault {
        GenFault::Order(order) => Ok(Answer::Brief(Brief::Refused(Refusal::Order(order)))),
        GenFault::Memory => Err(AllocError),
    }
}

/// The answer where no state is written.
pub fn no_state(fault: StateFault) -> Result<Answer, AllocError>
    ensures { result ≡ state_told fault }
{
    match fault {
        StateFault::CertLine(line) => Ok(Answer::Brief(Brief::CertLine(line))),
        StateFault::Memory => Err(AllocError),
    }
}

/// The answer where the steps are no certificate, or why they could not be read.
pub fn steps_told(fault: CertFault) -> Result<Answer, ReadAll>
    ensures { result ≡ steps_told fault }
{
    match fault {
        CertFault::CertLine(line) => Ok(Answer::Brief(Brief::CertLine(line))),
        CertFault::BadStep(line, cause) => Ok(Answer::Brief(Brief::BadStep(line, cause))),
        CertFault::NoVerdict => Ok(Answer::Brief(Brief::NoVerdict)),
        CertFault::CertWide(line, row, column) => {
            Ok(Answer::Brief(Brief::CertWide(line, row, column)))
        }
        CertFault::ReadFault => Err(ReadAll::ReadFault),
        CertFault::TooLong => Err(ReadAll::TooLong),
        CertFault::Memory => Err(ReadAll::Memory),
    }
}
