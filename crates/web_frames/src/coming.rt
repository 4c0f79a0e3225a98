//! A message of which not everything has come.
ghost use Rattle.std.specs.Prelude.{◌≡◌, ℕ, Bool, List, IfOk};
ghost use Rattle.web_frames.specs.declared.utf8.Utf8.{Utf8};
ghost use Rattle.web_frames.specs.Messages.{Adds, HandsOn, added, finished, handed_on, is_short, kept, opened, shown, too_long, with_piece};

use crate::arrival::Arrival;
use crate::breach::Breach;
use crate::utf8::Utf8;
use etp_values::Blob;
use std::alloc::{AllocError, Global};

/// The longest message that is handed on as it is, in bytes: 16 MiB. Of a longer one only the count is kept, and what is handed on is one
/// byte longer than this, all zero, so that whoever reads it sees that it is too long.
pub const MAX_MESSAGE: u64 = 16_777_216;

/// The length of what is handed on for a message that is too long.
const TOO_LONG: usize = 16_777_217;

/// A message of more bytes than this, 1 MiB, gets memory of its own from the system, to which it returns when the message is dropped.
const LARGE: u64 = 1_048_576;

/// The number of bytes that are allocated at once for a large message. The C library makes a separate mapping for a piece of this size,
/// however much it keeps of smaller ones; what is not written of it uses no memory, and what is not needed is given back when the message
/// is complete.
const MAPPED: usize = 33_619_968;

/// What a message is made of.
#[derive(Clone, Copy, Debug, PartialEq, Eq)]
pub enum Kind {
    Binary,
    /// A text is not a message of the protocol. It is checked, and handed on as an empty message, so that it is refused as one.
    Text,
}

/// Why a piece was not added.
#[derive(Clone, Copy, Debug)]
pub enum Unadded {
    /// The message breaks the protocol.
    Breach(Breach),
    /// Out of memory.
    NoMemory,
}

/// A message of which not everything has come. It holds no more than [`MAX_MESSAGE`] bytes.
#[derive(Drop)]
pub struct Coming {
    alloc: Global,
    kind: Kind,
    /// What has come of a binary message, while it is not too long.
    bytes: Vec<u8>,
    /// How many bytes have come.
    count: u64,
    utf8: Utf8,
}

impl Coming {
    /// A message of which nothing has come yet.
    pub(crate) fn new(alloc: Global, kind: Kind) -> Coming
        ensures { shown result ≡ opened kind }
    {
        Coming {
            alloc,
            kind,
            bytes: Vec::new(alloc),
            count: 0,
            utf8: Utf8::Whole,
        }
    }

    /// Adds a piece of the payload.
    pub(crate) fn add(&mut self, piece: &[u8]) -> Result<(), Unadded>
        ensures { Adds (added (shown self.old) piece.now) result (shown self.new) }
    {
        let Some(count) = self.count.checked_add(piece.len() as u64) else {
            return Err(Unadded::Breach(Breach::TooLong));
        };
        match self.kind {
            Kind::Binary => self.keep(count, piece),
            Kind::Text => self.check(count, piece),
        }
    }

    /// Checks a piece of a text, of which this many bytes have come including it.
    fn check(&mut self, count: u64, piece: &[u8]) -> Result<(), Unadded>
        requires { self.old.kind ≡ Kind.Text }
        ensures { Adds (with_piece Kind.Text (shown self.old) count piece.now) result (shown self.new) }
    {
        let Some(utf8) = self.utf8.after(piece) else {
            return Err(Unadded::Breach(Breach::Utf8));
        };
        self.utf8 = utf8;
        self.count = count;
        Ok(())
    }

    /// Keeps a piece of a binary message, of which this many bytes have come including it.
    fn keep(&mut self, count: u64, piece: &[u8]) -> Result<(), Unadded>
        requires { self.old.kind ≡ Kind.Binary }
        ensures { Adds (with_piece Kind.Binary (shown self.old) count piece.now) result (shown self.new) }
    {
        if !is_short(count) {
            self.bytes = Vec::new(self.alloc);
            self.count = count;
            return Ok(());
        }
        if self.make_room(count).is_err() || self.bytes.extend_from_slice(piece).is_err() {
            return Err(Unadded::NoMemory);
        }
        self.count = count;
        Ok(())
    }

    /// Makes room for a message of this many bytes, if it becomes large.
    fn make_room(&mut self, count: u64) -> Result<(), AllocError>
        ensures { shown self.new ≡ shown self.old }
    {
        if count <= LARGE || self.bytes.capacity() >= MAPPED {
            return Ok(());
        }
        let large = moved(self.alloc, self.bytes.as_slice())?;
        self.bytes = large;
        Ok(())
    }

    /// The complete message.
    pub(crate) fn finish(self) -> Arrival
        ensures { HandsOn (finished (shown self)) result }
    {
        let Coming {
            alloc,
            kind,
            bytes,
            count,
            utf8,
        } = self;
        match kind {
            Kind::Text => finish_text(utf8),
            Kind::Binary => finish_binary(alloc, bytes, count),
        }
    }
}

/// Whether a message of this many bytes is handed on as it is.
pub(crate) fn is_short(count: u64) -> bool
    ensures { result ≡ is_short count }
{
    count <= MAX_MESSAGE
}

/// A complete text.
fn finish_text(utf8: Utf8) -> Arrival
    ensures { (short : Bool) (bytes : List ℕ) → HandsOn (handed_on Kind.Text short bytes utf8) result }
{
    if utf8.is_whole() {
        Arrival::Message(Blob::new())
    } else {
        Arrival::Breach(Breach::Utf8)
    }
}

/// A complete binary message, of which this many bytes came.
fn finish_binary(alloc: Global, bytes: Vec<u8>, count: u64) -> Arrival
    ensures { (text : Utf8) → HandsOn (handed_on Kind.Binary (is_short count) bytes.items text) result }
{
    if !is_short(count) {
        drop(bytes);
        let Ok(zeros) = zeros(alloc) else {
            return Arrival::NoMemory;
        };
        let Ok(message) = Blob::from_vec(zeros) else {
            return Arrival::NoMemory;
        };
        return Arrival::Message(message);
    }
    let mut bytes = bytes;
    if bytes.capacity() >= MAPPED {
        bytes.shrink_to_fit();
    }
    match Blob::from_vec(bytes) {
        Ok(message) => Arrival::Message(message),
        Err(_) => Arrival::NoMemory,
    }
}

/// What is handed on for a message that is too long.
fn zeros(alloc: Global) -> Result<Vec<u8>, AllocError>
    ensures { IfOk result (λ v. v.items ≡ too_long) }
{
    let mut bytes = Vec::with_capacity(alloc, MAPPED)?;
    bytes.resize(TOO_LONG, 0)?;
    Ok(bytes)
}

/// These bytes in memory for a large message.
fn moved(alloc: Global, bytes: &[u8]) -> Result<Vec<u8>, AllocError>
    ensures { IfOk result (λ v. v.items ≡ bytes.now) }
{
    let mut large = Vec::with_capacity(alloc, MAPPED)?;
    large.extend_from_slice(bytes)?;
    Ok(large)
}
