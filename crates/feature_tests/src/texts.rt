//! Texts: tables of rows, one on each line, and long texts.
use byte_streams::Fault;
use std::alloc::{AllocError, Global};

/// The text, in which this row stands for `ROW`.
pub(crate) fn filled(alloc: Global, text: &str, row: &str) -> Result<String, AllocError> {
    text.replace(alloc, "ROW", row)
}

/// What stands before the first arrow of a row, and after it.
pub(crate) fn split(row: &str) -> (&str, &str) {
    match row.split_once(" => ") {
        Some(parts) => parts,
        None => (row, ""),
    }
}

pub(crate) fn is_named(alloc: Global, fault: Fault, name: &str) -> bool {
    match format!(in alloc; "{fault:?}") {
        Ok(text) => text.as_str() == name,
        Err(_) => false,
    }
}

/// Which numbers, in which order: the places from the first on and below the last, each times the step, modulo the last.
#[derive(Clone, Copy)]
pub(crate) struct Numbers {
    pub(crate) first: u32,
    pub(crate) last: u32,
    pub(crate) step: u32,
}

/// The numbers below this one, in their order.
pub(crate) const fn below(last: u32) -> Numbers {
    Numbers {
        first: 0,
        last,
        step: 1,
    }
}

/// The form, in which this number stands for `NUMBER`, and with eight digits for `DIGITS`.
fn numbered(alloc: Global, form: &str, number: u32) -> Result<String, AllocError> {
    let text = form.replace(alloc, "NUMBER", &format!(in alloc; "{number}")?)?;
    text.replace(alloc, "DIGITS", &format!(in alloc; "{number:08}")?)
}

fn put_numbered(
    text: &mut String,
    alloc: Global,
    (form, separator): (&str, &str),
    number: u32,
) -> Result<(), AllocError> {
    if !text.is_empty() {
        text.push_str(separator)?;
    }
    text.push_str(&numbered(alloc, form, number)?)
}

/// The forms of these numbers, with the separator between two of them.
fn for_each(alloc: Global, form: (&str, &str), numbers: Numbers) -> Result<String, AllocError> {
    let mut text = String::new(alloc);
    for place in numbers.first..numbers.last {
        let number = place.wrapping_mul(numbers.step).checked_rem(numbers.last);
        put_numbered(&mut text, alloc, form, number.unwrap_or(0))?;
    }
    Ok(text)
}

/// The text, in which the forms of these numbers stand for the name.
pub(crate) fn repeated(
    alloc: Global,
    text: &str,
    name: &str,
    form: (&str, &str),
    numbers: Numbers,
) -> Result<String, AllocError> {
    text.replace(alloc, name, &for_each(alloc, form, numbers)?)
}
