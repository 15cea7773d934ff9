//! Laws of the texts of logs, as the contracts of functions that do nothing.
ghost use Rattle.std.specs.Prelude.{◌≡◌, ◌+◌, ◌^◌};
ghost use Rattle.bt_cert.specs.Laws.{PrintedIsRead, PrintedIsCertificate, TextTellsLog};
ghost use Rattle.bt_cert.specs.Laws.{CertificateShowsUnmet, LogIsCertificate};

use crate::defining::MOST_DEFINITIONS;
use crate::reading::FIRST_LINE;
use bt_extend::MOST_NUMBER;

/// What is printed of a log is read as the same steps, where their numbers have at most 18 digits in the
/// text.
pub fn printed_is_read()
    ensures { PrintedIsRead }
{}

/// A text is that of one log.
pub fn text_tells_log()
    ensures { TextTellsLog }
{}

/// What is printed of a log that refutes a formula is a certificate, where its numbers have at most 18
/// digits in the text and the sum of no lemma leaves 128 bits.
pub fn printed_is_certificate()
    ensures { PrintedIsCertificate }
{}

/// A text that spells a log which refutes a formula, and the sum of no lemma leaves 128 bits, is a
/// certificate, which defines nothing.
pub fn log_is_certificate()
    ensures { LogIsCertificate }
{}

/// Where a text is a certificate for a formula, whatever it defines, nothing meets the formula.
pub fn certificate_shows_unmet()
    ensures { CertificateShowsUnmet }
{}

/// The number of the first line of definitions and steps, the most definitions of a certificate, and the
/// greatest number that a step may write: it has 18 digits.
pub fn numbers_are()
    ensures first { FIRST_LINE ≡ 2 }
    ensures definitions { MOST_DEFINITIONS ≡ 2 ^ 20 }
    ensures most { MOST_NUMBER + 1 ≡ 10 ^ 18 }
{}
