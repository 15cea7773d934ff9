//! Reading numbers, byte by byte, by how far each is written.
ghost use Rattle.std.specs.Prelude.{◌≡◌, ◌≤◌, ◌<◌, ◌+◌, ◌*◌, ◌^◌, [], length, slice_index, drop, false, true, IfOk, IfErr, IfSome, IfNone, OnOk, OnErr, List, ℕ, All, MatchOption};
ghost use Rattle.bt_json.specs.inner.Reading.{first_phase};
ghost use Rattle.bt_json.specs.declared.limits.TheConstants.{MOST_EXPONENT};

use crate::decimal::Decimal;
use crate::fault::JsonFault;
use crate::kind::{Mark, Phase, mark_of, may_end};
use crate::limits::MOST_EXPONENT;
use smallvec::SmallVec;
use std::alloc::{AllocError, Global};

/// A number as far as it is written.
#[derive(Drop)]
pub struct Numeral {
    negative: bool,
    digits: SmallVec<u8, 16>,
    /// How many of the digits are the fraction's.
    places: usize,
    /// Whether the exponent has a minus sign.
    below: bool,
    power: u64,
    ghost below_ten: { All (λ d. d < 10) digits.items },
    ghost counted: { places ≤ length digits.items },
    ghost limited: { power ≤ MOST_EXPONENT },
}

/// How a number goes on at a byte.
pub enum Next {
    GoesOn(Phase),
    /// It ends before the byte.
    Ends,
    /// The byte can't stand there.
    Wrong,
}

impl Numeral {
    ghost use Rattle.bt_json.specs.inner.Numerals.{view, shown, TakesByte, TakesRest, ReadsNumber};
    ghost use Rattle.bt_json.specs.inner.Reading.{with_whole, with_fraction, with_power, step_digit, step_number, step_sign, numeral_value};
    ghost use Rattle.bt_json.specs.Stands.{number_of};
    ghost use Rattle.bt_json.specs.inner.Reading.{numeral};
    ghost use Rattle.bt_json.specs.declared.fault.JsonFault.TheVariants.{Memory};
    ghost use Rattle.bt_json.specs.declared.kind.Phase.TheVariants.{BeforeWhole};

    /// Adds a digit of the whole part.
    fn push_digit(&mut self, digit: u8) -> Result<(), AllocError>
        requires { digit < 10 }
        ensures ok { OnOk result (view self.new ≡ with_whole (view self.old) digit) }
    {
        self.digits.push(digit)?;
        Ok(())
    }

    /// Adds a digit of the fraction.
    fn push_fraction(&mut self, digit: u8) -> Result<(), AllocError>
        requires { digit < 10 }
        ensures ok { OnOk result (view self.new ≡ with_fraction (view self.old) digit) }
    {
        self.digits.push(digit)?;
        prove!(self.places < self.digits.len());
        self.places += 1;
        Ok(())
    }

    /// Adds a digit to the exponent, which is kept at `MOST_EXPONENT` at most.
    fn push_power(&mut self, digit: u8)
        requires { digit < 10 }
        ensures { view self.new ≡ with_power (view self.old) digit }
    {
        self.power = if self.power > MOST_EXPONENT / 10 {
            MOST_EXPONENT
        } else {
            (self.power * 10 + u64::from(digit)).min(MOST_EXPONENT)
        };
    }

    /// Adds a digit to the part of the number that is being written, and gives how it goes on. Behind a leading 0 no
    /// digit can stand.
    fn take_digit(&mut self, phase: Phase, digit: u8) -> Result<Next, AllocError>
        requires { digit < 10 }
        ensures { IfOk result (λ next. shown next (view self.new) ≡ step_digit phase (view self.old) digit) }
    {
        match phase {
            Phase::BeforeWhole => {
                self.push_digit(digit)?;
                Ok(Next::GoesOn(first_phase(digit)))
            }
            Phase::AfterZero => Ok(Next::Wrong),
            Phase::InWhole => {
                self.push_digit(digit)?;
                Ok(Next::GoesOn(Phase::InWhole))
            }
            Phase::AfterPoint | Phase::InFraction => {
                self.push_fraction(digit)?;
                Ok(Next::GoesOn(Phase::InFraction))
            }
            Phase::AfterLetter | Phase::AfterSign | Phase::InPower => {
                self.push_power(digit);
                Ok(Next::GoesOn(Phase::InPower))
            }
        }
    }

    /// Takes the next byte of a number that is written so far, and gives how it goes on. A byte that goes on no number
    /// ends it, where it may end.
    fn step(&mut self, phase: Phase, byte: u8) -> Result<Next, AllocError>
        ensures { IfOk result (TakesByte phase self.old byte self.new) }
    {
        match mark_of(byte) {
            Mark::Figure(digit) => self.take_digit(phase, digit),
            Mark::Point => Ok(match phase {
                Phase::AfterZero | Phase::InWhole => Next::GoesOn(Phase::AfterPoint),
                _ => Next::Wrong,
            }),
            Mark::LetterE => Ok(match phase {
                Phase::AfterZero | Phase::InWhole | Phase::InFraction => {
                    Next::GoesOn(Phase::AfterLetter)
                }
                _ => Next::Wrong,
            }),
            Mark::PlusSign => Ok(self.take_sign(phase, false)),
            Mark::MinusSign => Ok(self.take_sign(phase, true)),
            Mark::Over => Ok(if may_end(phase) {
                Next::Ends
            } else {
                Next::Wrong
            }),
        }
    }

    /// Takes the exponent's sign, a minus where `below` holds, and gives how the number goes on. Elsewhere than behind
    /// the letter e no sign can stand.
    fn take_sign(&mut self, phase: Phase, below: bool) -> Next
        ensures { shown result (view self.new) ≡ step_sign below phase (view self.old) }
    {
        match phase {
            Phase::AfterLetter => {
                self.below = below;
                Next::GoesOn(Phase::AfterSign)
            }
            _ => Next::Wrong,
        }
    }

    /// The number, once it has ended. A fraction of more digits than `MOST_EXPONENT` fits no memory, and is told as
    /// want of memory.
    fn into_decimal(self) -> Result<Decimal, JsonFault>
        ensures ok { IfOk result (λ d. number_of d ≡ numeral_value (view self)) }
        ensures err { IfErr result (λ f. f ≡ Memory) }
    {
        let Numeral {
            negative,
            digits,
            places,
            below,
            power,
        } = self;
        if places as u64 > MOST_EXPONENT {
            return Err(JsonFault::Memory);
        }
        let power = power as i64;
        let power = if below { -power } else { power };
        Ok(Decimal {
            negative,
            digits,
            exponent: power - places as i64,
        })
    }

    /// Takes the rest of a number that is written so far, and gives the place after it. A byte that can't stand there
    /// is a fault, and so is the end of the bytes where the number may not end.
    fn take_rest(&mut self, phase: Phase, bytes: &[u8], start: usize) -> Result<usize, JsonFault>
        requires { start ≤ length bytes.now }
        ensures { TakesRest bytes.now start phase (view self.old) (view self.new) result }
    {
        let mut phase = phase;
        let mut at = start;
        while at < bytes.len() {
            match self.step(phase, bytes[at])? {
                Next::GoesOn(next) => {
                    phase = next;
                    at += 1;
                }
                Next::Ends => return Ok(at),
                Next::Wrong => return Err(JsonFault::Json(at)),
            }
        }
        if !may_end(phase) {
            return Err(JsonFault::Json(at));
        }
        Ok(at)
    }

    /// A number of which at most the sign is written.
    fn new(alloc: Global, negative: bool) -> Self
        ensures { view result ≡ numeral negative [] }
    {
        Numeral {
            negative,
            digits: SmallVec::new(alloc),
            places: 0,
            below: false,
            power: 0,
        }
    }

    /// The number whose whole part is due at a place, behind its sign if it has one, and the place
    /// after it.
    pub fn read(
        alloc: Global,
        negative: bool,
        bytes: &[u8],
        start: usize,
    ) -> Result<(Decimal, usize), JsonFault>
        requires { start ≤ length bytes.now }
        ensures { ReadsNumber bytes.now start BeforeWhole (numeral negative []) result }
    {
        let mut numeral = Numeral::new(alloc, negative);
        let end = numeral.take_rest(Phase::BeforeWhole, bytes, start)?;
        Ok((numeral.into_decimal()?, end))
    }
}

/// How far a number is written whose whole part begins with the digit.
fn first_phase(digit: u8) -> Phase
    ensures { result ≡ first_phase digit }
{
    if digit == 0 {
        Phase::AfterZero
    } else {
        Phase::InWhole
    }
}
