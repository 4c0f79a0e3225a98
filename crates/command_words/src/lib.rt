//! The positional words of a command line, read by `clap`.
//!
//! No program of this workspace has options: a word is known by its position, and none of their forms has a word that begins with `-`.
//! [`words_of`] refuses such words before `clap` sees them. The others are the values of the one argument of the command in [`parsing`], so
//! `clap` gives back every one of them unchanged, including the empty word and `help`.
#![tactic(auto)]

mod counts;
mod parsing;
mod words;

pub use counts::count_in;
pub use words::words_of;
