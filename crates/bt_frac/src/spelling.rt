//! Fractions written as text, into a buffer of the caller's.
ghost use Rattle.std.specs.Prelude.{◌≡◌, ◌≤◌, take};
ghost use Rattle.bt_frac.specs.Texts.{frac_text};

use crate::frac::Frac;
use crate::parts::magnitude;
use itoa::Buffer;

/// The most bytes of a fraction's text: a minus, twice 39 digits, and a slash.
pub const TEXT_MAX: usize = 80;

impl Frac {
    /// Writes the one spelling of the fraction to the front of a buffer, and gives the number of its bytes. It is the
    /// numerator, with a minus where it is negative, and where the denominator isn't 1, a slash and the denominator.
    pub fn text(&self, buf: &mut [u8; TEXT_MAX]) -> usize
        ensures within { result ≤ TEXT_MAX }
        ensures written { take result buf.new ≡ frac_text self.now }
    {
        let mut digits = Buffer::new();
        let over = digits.format(self.numerator()).as_bytes();
        let slash = over.len();
        buf[..slash].copy_from_slice(over);
        let under = magnitude(self.denominator());
        if under == 1 {
            return slash;
        }
        buf[slash] = b'/';
        let under = digits.format(under).as_bytes();
        let end = slash + 1 + under.len();
        buf[slash + 1..end].copy_from_slice(under);
        end
    }
}
