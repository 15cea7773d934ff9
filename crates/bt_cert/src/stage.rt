//! The stages of reading a certificate.
use crate::fault::CertFault;

/// What may come next.
#[derive(Clone, Copy)]
pub enum Stage {
    /// Lines of steps, and then the line `end`.
    Steps,
    /// Blanks, up to the end of the text.
    Blanks,
    /// Anything: the text is no certificate.
    Refused(CertFault),
}
