//! Checks and measures the store of channels.
pub(crate) mod changes;
pub(crate) mod error;
pub(crate) mod feed;
pub(crate) mod measure;
pub(crate) mod plain;
pub(crate) mod trial;
