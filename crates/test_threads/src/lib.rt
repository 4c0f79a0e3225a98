//! Tests of what threads share: the turns of `turn_book`, and a hub of `store_hub`. The program `check_server` shows sessions in threads
//! that share a store.
#![tactic(auto)]

#[cfg(test)]
mod hubs;
#[cfg(test)]
mod turns;
