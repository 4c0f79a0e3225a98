//! Tests of channels, of their points and subscriptions, and of the index of entries.
#![tactic(auto)]

#[cfg(test)]
mod channels;
#[cfg(test)]
mod claims;
#[cfg(test)]
mod copies;
#[cfg(test)]
mod entries;
#[cfg(test)]
mod points;
#[cfg(test)]
mod subscriptions;
