//! Why a text is no certificate.
ghost use Rattle.std.specs.Prelude.{◌≡◌};
ghost use Rattle.bt_cert.specs.declared.fault.CertFault.TheVariants.{Memory};

use bt_farkas::WideAt;
use std::alloc::{AllocError, AllocFailed};

/// Why a step isn't valid: the first of these that applies.
#[derive(Clone, Copy, Debug, PartialEq, Eq)]
pub enum Cause {
    /// A literal is of no variable; or it is one of a lemma and isn't the negation of an atom; or a
    /// learnt clause has a variable with both signs.
    Literal,
    /// A lemma has another number of weights than literals, or a row that is no equation has a negative
    /// weight.
    Weight,
    /// The weighted rows of a lemma add up to a row that some values may meet.
    Sum,
    /// A hint is the number of no clause before the step.
    Hint,
    /// A learnt clause has no hint, a hinted clause before the last isn't unit in its turn, or the last
    /// has a literal that isn't false.
    Unit,
}

/// Why a step was not kept.
#[derive(Clone, Copy, PartialEq, Eq)]
pub enum StepFault {
    /// The step isn't valid.
    Fails(Cause),
    /// The sum of the lemma leaves 128 bits there.
    Wide(WideAt),
    /// No memory could be had.
    Memory,
}

impl From<AllocError> for StepFault {
    ghost use Rattle.bt_cert.specs.declared.fault.StepFault.TheVariants as fault;

    ghost from_gives = { λ _ e. e ≡ fault.Memory };

    fn from(_: AllocError) -> Self {
        StepFault::Memory
    }
}

/// Why a text is no certificate that a formula is met by nothing.
#[derive(Clone, Copy, Debug, PartialEq, Eq)]
pub enum CertFault {
    /// This line isn't one that may stand there, or the text ends before it.
    CertLine(usize),
    /// The step on this line isn't valid.
    BadStep(usize, Cause),
    /// The steps end without the empty clause.
    NoVerdict,
    /// The sum of a lemma leaves 128 bits: the line, and the row and the column in the sum.
    CertWide(usize, usize, usize),
    /// The source failed.
    ReadFault,
    /// The source has more bytes than the limit.
    TooLong,
    /// No memory could be had.
    Memory,
}

impl From<AllocError> for CertFault {
    ghost from_gives = { λ _ e. e ≡ Memory };

    fn from(_: AllocError) -> Self {
        CertFault::Memory
    }
}

impl<T: Drop> From<AllocFailed<T>> for CertFault {
    ghost from_gives = { λ _ e. e ≡ Memory };

    fn from(_: AllocFailed<T>) -> Self {
        CertFault::Memory
    }
}
