//! Tests of what touches the outside, and of what is read from there, as far as no program shows it.
#![tactic(auto)]

#[cfg(test)]
mod adapters;
#[cfg(test)]
mod captures;
#[cfg(test)]
mod settings;
