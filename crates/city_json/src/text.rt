//! The texts in a value: strings, and numbers as they were written.
ghost use Rattle.std.specs.Prelude.{◌≡◌, [], ◌∷◌, drop, if◌then◌else◌, IfOk, IfErr};
ghost use Rattle.std.specs.Str.Parse.{AllDigits, without_leading_sign};
ghost use Rattle.city_json.specs.Bytes.{minus};
ghost use Rattle.city_json.specs.Gives.{RefusesNumber};
ghost use Rattle.city_json.specs.Number.{IsNumber};

use crate::number_parts::{NumberParts, number_parts};
use crate::reading::numbers::is_number;
use crate::short::ShortBytes;
use byte_streams::Fault;
use std::alloc::{AllocError, Global};
use std::convert::AsStr;
use std::marker::Model;

/// A text in UTF-8.
#[derive(Debug, Drop)]
pub struct Str {
    text: String,
}

impl Model for Str {
    ghost use Rattle.std.specs.Prelude.{List, ℕ, string_bytes};

    ghost Value = { List ℕ };

    ghost view = { λ text. string_bytes text.text };
}

impl Str {
    /// A text of its own with the same bytes. The only fault is [`Fault::Memory`].
    pub fn read(alloc: Global, text: &str) -> Result<Str, Fault>
        ensures ok { IfOk result (λ read. read ≡ text.now) }
        ensures fault { IfErr result (λ fault. fault ≡ Fault.Memory) }
    {
        Ok(Str::of(alloc, text)?)
    }

    pub(crate) fn of(alloc: Global, text: &str) -> Result<Str, AllocError>
        ensures { IfOk result (λ copy. copy ≡ text.now) }
    {
        let text = String::from_str(alloc, text)?;
        Ok(Str { text })
    }

    pub(crate) fn copy(&self, alloc: Global) -> Result<Str, AllocError>
        ensures { IfOk result (λ copy. copy ≡ self.now) }
    {
        Str::of(alloc, self.as_str())
    }

    /// Its characters, lent.
    pub fn as_str(&self) -> &str
        ensures { result.now ≡ self.now }
    {
        self.text.as_str()
    }
}

impl AsStr for Str {
    ghost text = { λ text. text };

    fn as_str(&self) -> &str {
        Str::as_str(self)
    }
}

/// A number as it was written (RFC 8259, section 6).
#[derive(Debug, Drop)]
pub struct NumText {
    text: ShortBytes,
}

impl Model for NumText {
    ghost use Rattle.std.specs.Prelude.{List, ℕ};
    ghost use Rattle.city_json.specs.Number.{IsNumber};

    ghost Value = { List ℕ };

    ghost view = { λ number. number.text };

    ghost invariant = { λ number. IsNumber number.text };
}

impl NumText {
    /// The number that the bytes are.
    ///
    /// # Errors
    ///
    /// [`Fault::Syntax`] where they are no number (RFC 8259, section 6), before any memory is asked for, and else
    /// [`Fault::Memory`] where there is not enough.
    pub fn read(alloc: Global, bytes: &[u8]) -> Result<NumText, Fault>
        ensures ok { IfOk result (λ number. (number ≡ bytes.now) × IsNumber bytes.now) }
        ensures fault { IfErr result (λ fault. RefusesNumber fault bytes.now) }
    {
        if is_number(bytes) {
            Ok(NumText::of(alloc, bytes)?)
        } else {
            Err(Fault::Syntax)
        }
    }

    /// From the bytes of a number.
    pub(crate) fn of(alloc: Global, bytes: &[u8]) -> Result<NumText, AllocError>
        requires { IsNumber bytes.now }
        ensures { IfOk result (λ number. number ≡ bytes.now) }
    {
        let text = ShortBytes::copy_of(alloc, bytes)?;
        Ok(NumText { text })
    }

    pub(crate) fn copy(&self, alloc: Global) -> Result<NumText, AllocError>
        ensures { IfOk result (λ copy. copy ≡ self.now) }
    {
        let text = ShortBytes::copy_of(alloc, self.text.items())?;
        Ok(NumText { text })
    }

    /// Its bytes as they were written, lent.
    pub fn as_bytes(&self) -> &[u8]
        ensures bytes { result.now ≡ self.now }
        ensures number { IsNumber self.now }
    {
        self.text.items()
    }

    /// Its sign, its digits before and after the point, and its exponent.
    pub fn parts(&self) -> NumberParts<'_>
        ensures number { IsNumber self.now }
        ensures sign { (n : IsNumber self.now)
            → n.minus_sign ≡ (if result.is_negative then minus ∷ [] else []) }
        ensures whole { (n : IsNumber self.now) → result.whole.now ≡ n.whole }
        ensures fraction { (n : IsNumber self.now) → result.fraction.now ≡ drop 1 n.fraction }
        ensures exponent { (n : IsNumber self.now) → result.exponent.now ≡ drop 1 n.exponent }
        ensures digits { AllDigits 10 result.whole.now × AllDigits 10 result.fraction.now
            × AllDigits 10 (without_leading_sign result.exponent.now) }
    {
        number_parts(self.text.items())
    }
}
