//! Tests of views and boards.
#![tactic(auto)]

#[cfg(test)]
mod boards;
