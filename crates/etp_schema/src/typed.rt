//! Typed values.
ghost use Rattle.etp_schema.specs.Form.{Form};

/// A type whose values correspond one to one to those of a schema.
///
/// `form` says to which schema, as which value a value of the type is written, and what a value is read as. Its laws `back` and `there` are
/// part of it, so every `impl` has them.
pub trait Typed: Drop {
    ghost form: { Form Self };
}
