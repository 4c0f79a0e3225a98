//! Reads a server's configuration from a file.
//!
//! [`read_config`] opens the file of a name, reads it, and returns its configuration, or the status with which a program that can't
//! continue without one ends.
#![tactic(auto)]

mod reading;

pub use reading::read_config;
