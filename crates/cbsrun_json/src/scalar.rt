//! Values with no keys.

ghost use Rattle.std.specs.Prelude.{◌≡◌, IfOk, option_map};
ghost use Rattle.serde_json.specs.View.{view};
ghost use Rattle.cbsrun_json.specs.Members.{long_if, pair_data, pair_if, scalar_data, text_if, told, whole_if};

use crate::members::ToJson;
use serde_json::{Value, json};
use std::alloc::{AllocError, Global};

/// A JSON value with no keys.
#[derive(Clone, Copy)]
pub enum Scalar<'a> {
    /// Whether something is so.
    Is(bool),
    /// A text.
    Text(&'a str),
    /// A text, or null if there is none.
    TextIf(Option<&'a str>),
    /// A number.
    Whole(u64),
    /// A number, or null if there is none.
    WholeIf(Option<u64>),
    /// A number, told as 2^64 - 1 if it is greater, or null if there is none.
    LongIf(Option<u128>),
    /// Two numbers: a part and its whole, a sum and a count, or the least and the greatest.
    Pair(u64, u64),
    /// Two numbers, or null if there are none.
    PairIf(Option<(u64, u64)>),
}

/// Returns the number, or 2^64 - 1 if the number is greater.
pub fn told(number: u128) -> u64
    ensures { result ≡ told number }
{
    u64::try_from(number).unwrap_or(u64::MAX)
}

/// Returns a text, or null if there is none. The only error is out of memory.
fn text_if(alloc: Global, text: Option<&str>) -> Result<Value, AllocError>
    ensures { IfOk result (λ v. view v ≡ text_if (option_map (λ t. t.now) text.entry)) }
{
    match text {
        Some(text) => Value::try_from_str(alloc, text),
        None => Ok(Value::Null),
    }
}

/// Returns a number, or null if there is none.
fn whole_if(number: Option<u64>) -> Value
    ensures { view result ≡ whole_if number }
{
    match number {
        Some(number) => Value::from(number),
        None => Value::Null,
    }
}

/// Returns a number, at most 2^64 - 1, or null if there is none.
fn long_if(number: Option<u128>) -> Value
    ensures { view result ≡ long_if number }
{
    match number {
        Some(number) => Value::from(told(number)),
        None => Value::Null,
    }
}

/// Returns an array of two numbers. The only error is out of memory.
#[tactic(auto, unfolding(crate::specs::Members::pair_data))]
fn pair_value(alloc: Global, first: u64, second: u64) -> Result<Value, AllocError>
    ensures { IfOk result (λ v. view v ≡ pair_data first second) }
{
    json!(in alloc; [first, second])
}

/// Returns an array of two numbers, or null if there are none. The only error is out of memory.
fn pair_if(alloc: Global, pair: Option<(u64, u64)>) -> Result<Value, AllocError>
    ensures { IfOk result (λ v. view v ≡ pair_if pair) }
{
    match pair {
        Some((first, second)) => pair_value(alloc, first, second),
        None => Ok(Value::Null),
    }
}

impl ToJson for Scalar<'_> {
    ghost shown = { λ s. scalar_data s };

    fn to_json(&self, alloc: Global) -> Result<Value, AllocError> {
        match *self {
            Scalar::Is(so) => Ok(Value::from(so)),
            Scalar::Text(text) => Value::try_from_str(alloc, text),
            Scalar::TextIf(text) => text_if(alloc, text),
            Scalar::Whole(number) => Ok(Value::from(number)),
            Scalar::WholeIf(number) => Ok(whole_if(number)),
            Scalar::LongIf(number) => Ok(long_if(number)),
            Scalar::Pair(first, second) => pair_value(alloc, first, second),
            Scalar::PairIf(pair) => pair_if(alloc, pair),
        }
    }
}
