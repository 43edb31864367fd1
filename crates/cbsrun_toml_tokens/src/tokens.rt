//! The tokens of `toml_parser`, with the reasons to stop of this crate.
ghost use Rattle.std.specs.Prelude.{◌≡◌, true, string_bytes, [], IfOk, IfErr};
ghost use Rattle.toml.specs.View.{view};
ghost use Rattle.toml.specs.Parse as spec;
ghost use Rattle.toml_parser.specs.Reading.{key_view};
ghost use Rattle.toml_parser.specs.Strings.{key};
ghost use Rattle.toml_parser.specs.declared.error.ParseError.TheVariants.{OutOfMemory};
ghost use Rattle.cbsrun_toml_tokens.specs.Tokens.{Reads, Shortens, stop_of};
ghost use Rattle.cbsrun_toml_tokens.specs.declared.stop.Stop.TheVariants.{NotToml, Unusual};

use crate::stop::Stop;
use std::alloc::Global;
use toml::Value;
use toml_parser::text::{first, skip, skip_ws};
use toml_parser::{Key, ParseError, Scalar, dotted_key, quoted, starts_string, unquoted};

/// Returns why reading stops at an error of the tokens.
fn stop(error: ParseError) -> Stop
    ensures value { result ≡ stop_of error }
    ensures memory { result ≡ NotToml → error ≡ OutOfMemory → ⊥ }
{
    match error {
        ParseError::OutOfMemory => Stop::OutOfMemory,
        ParseError::At(_, _, _) => Stop::NotToml,
    }
}

/// Returns a scalar as a value.
fn scalar_value(scalar: Scalar) -> Value
    ensures { view result ≡ spec.scalar_data scalar }
{
    match scalar {
        Scalar::Boolean(b) => Value::Boolean(b),
        Scalar::Integer(n) => Value::Integer(n),
        Scalar::Float(x) => Value::Float(x),
        Scalar::Datetime(datetime) => Value::Datetime(datetime),
    }
}

/// Returns the string or the scalar at the start of a text, and the text after it.
pub fn atom(alloc: Global, s: &str) -> Result<(Value, &str), Stop>
    ensures value { Reads view result (spec.atom s.now) }
    ensures shorter { Shortens s.now result }
{
    if starts_string(s) {
        match quoted(alloc, s) {
            Ok((text, rest)) => Ok((Value::String(text), rest)),
            Err(error) => Err(stop(error)),
        }
    } else {
        match unquoted(alloc, s) {
            Ok((scalar, rest)) => Ok((scalar_value(scalar), rest)),
            Err(error) => Err(stop(error)),
        }
    }
}

/// Returns the key at the start of a text, and the text after the blanks that follow the key.
pub fn dotted(alloc: Global, s: &str) -> Result<(Key, &str), Stop>
    ensures value { Reads key_view result (key s.now) }
    ensures shorter { Shortens s.now result }
{
    match dotted_key(alloc, s) {
        Ok((key, rest)) => Ok((key, rest)),
        Err(error) => Err(stop(error)),
    }
}

/// Returns the key at the start of a text, and the text after the key's `=` and the blanks that follow the `=`.
pub fn key_equals(alloc: Global, s: &str) -> Result<(Key, &str), Stop>
    ensures value { Reads key_view result (spec.key_equals s.now) }
    ensures shorter { Shortens s.now result }
{
    match dotted_key(alloc, s) {
        Ok((key, rest)) => {
            if first(rest) != b'=' {
                return Err(Stop::NotToml);
            }
            Ok((key, skip_ws(skip(rest, 1))))
        }
        Err(error) => Err(stop(error)),
    }
}

/// Returns the one part of a key. Refuses a key with dots with [`Stop::Unusual`].
pub fn simple(key: Key) -> Result<String, Stop>
    ensures key { IfOk result (λ last. key_view key ≡ ([], string_bytes last)) }
    ensures unusual { IfErr result (λ e. e ≡ Unusual) }
{
    let Key { path, last } = key;
    if path.is_empty() {
        Ok(last)
    } else {
        Err(Stop::Unusual)
    }
}

/// Returns whether a line may end at the start of the text.
pub fn ends_line(s: &str) -> bool
    ensures { result ≡ spec.ends_line s.now }
{
    s.is_empty() || matches!(first(s), b'#' | b'\n' | b'\r')
}
