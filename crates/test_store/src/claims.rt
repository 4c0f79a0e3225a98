//! What tests claim. A call is proved faster than a macro, whose steps all become part of the function that uses it.
use std::fmt::Debug;
use std::process::Abort;

/// That two values are equal.
pub(crate) fn equal<T: Debug + PartialEq + Drop>(rt: &impl Abort, found: T, expected: T) {
    assert_eq!(rt; found, expected);
}

/// That something holds.
pub(crate) fn holds(rt: &impl Abort, found: bool) {
    assert!(rt; found);
}
