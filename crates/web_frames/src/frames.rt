//! The frames in the bytes that have come (RFC 6455, section 5).
ghost use Rattle.std.specs.Prelude.{◌≡◌, ◌<◌, ◌≤◌, ◌++◌, [], length, drop, take, min, None, Some, Ok, IfOk, IfErr, OnOk, OnErr};
ghost use Rattle.websocket.specs.Connection.{close_step, read_step, write_step};
ghost use Rattle.websocket.specs.Content.{message_content};
ghost use Rattle.websocket.specs.FrameHeader.{decode_header};
ghost use Rattle.websocket.specs.Mask.{apply_mask_if};
ghost use Rattle.websocket.specs.View.{GivesError, Leaves};
ghost use Rattle.web_frames.specs.Input.{Fills, bytes_of};
ghost use Rattle.web_frames.specs.Messages.{shown};
ghost use Rattle.web_frames.specs.Reading.{Answers, Finds, IsFresh, IsMessage, begun, look, on_added, on_control, on_data, on_header, on_payload, reading_of, refusal_of, rest_of, step_found, turned, unadded_found};

use crate::arrival::Arrival;
use crate::breach::{Breach, may_come};
use crate::buffer::Input;
use crate::coming::{Coming, Kind, Unadded, is_short};
use crate::input::Filled;
use etp_values::Blob;
use std::alloc::Global;
use std::io::Read;
use websocket::error::Error;
use websocket::protocol::frame::coding::{CloseCode, Data, OpCode};
use websocket::protocol::frame::{FrameHeader, FrameStatus, MaskKeys};
use websocket::protocol::{
    CloseFrame, Message, Received, Role, Step, WebSocketConfig, WebSocketContext,
};

/// A data frame of which not everything was taken.
#[derive(Clone, Copy, Debug)]
pub struct Frame {
    /// How many bytes of its payload are still to come.
    left: u64,
    /// The key of its mask, rotated so that its first byte is for the next byte of the payload.
    key: Option<[u8; 4]>,
    /// Whether it is the last of its message.
    is_final: bool,
}

/// The frames of a connection: what has come and was not taken, and how far the current fragmented message is. What has come of an
/// incomplete frame is taken at once, so that no more than one message and one read are kept.
#[derive(Drop)]
pub struct Frames {
    alloc: Global,
    role: Role,
    /// Answers pings and goodbyes, and makes the frames that are sent.
    context: WebSocketContext,
    input: Input,
    frame: Option<Frame>,
    coming: Option<Coming>,
}

impl Frames {
    /// The frames of a connection that begins with these bytes.
    pub fn new(alloc: Global, role: Role, early: Vec<u8>) -> Frames
        ensures { IsFresh role early.items (reading_of result) }
    {
        Frames {
            alloc,
            role,
            context: WebSocketContext::new(alloc, role, WebSocketConfig::default()),
            input: Input::new(early),
            frame: None,
            coming: None,
        }
    }

    /// Reads once.
    pub fn fill<S: Read>(&mut self, stream: &mut S) -> Filled
        ensures fills { Fills result (S.remaining stream.old) (S.remaining stream.new) (reading_of self.old).input (reading_of self.new).input }
        ensures kept { reading_of self.new ≡ record (reading_of self.old) { input = (reading_of self.new).input } }
    {
        self.input.fill(stream)
    }

    /// Forgets what has come and was not taken.
    pub fn forget(&mut self)
        ensures { reading_of self.new ≡ record (reading_of self.old) { input = [] } }
    {
        let count = self.input.len();
        self.input.take(count);
    }

    /// Appends a message to the output as one frame, masked if it goes to a server.
    pub fn write<K: MaskKeys>(
        &mut self,
        message: Message<'_>,
        output: &mut Vec<u8>,
        keys: &mut K,
    ) -> Result<(), Error>
        ensures ok { OnOk result (Leaves (write_step (reading_of self.old).connection (message_content message.entry)) (reading_of self.new).connection output.old.items output.new.items) }
        ensures err { IfErr result (GivesError (write_step (reading_of self.old).connection (message_content message.entry))) }
        ensures err_output { OnErr result (output.new.items ≡ output.old.items) }
        ensures kept { reading_of self.new ≡ record (reading_of self.old) { connection = (reading_of self.new).connection } }
    {
        self.context.write(message, output, keys)
    }

    /// Appends only the header of a message's frame, if the message needs no mask, and returns the bytes that are to be sent after the
    /// output. Otherwise it does the same as [`write`](Self::write).
    pub fn write_header<'m, K: MaskKeys>(
        &mut self,
        message: Message<'m>,
        output: &mut Vec<u8>,
        keys: &mut K,
    ) -> Result<&'m [u8], Error>
        ensures ok { IfOk result (λ rest. Leaves (write_step (reading_of self.old).connection (message_content message.entry)) (reading_of self.new).connection output.old.items (output.new.items ++ rest.now)) }
        ensures err { IfErr result (GivesError (write_step (reading_of self.old).connection (message_content message.entry))) }
        ensures err_output { OnErr result (output.new.items ≡ output.old.items) }
        ensures kept { reading_of self.new ≡ record (reading_of self.old) { connection = (reading_of self.new).connection } }
    {
        self.context.write_vectored(message, output, keys)
    }

    /// Appends a Close frame with this code, unless one was sent.
    pub fn close<K: MaskKeys>(
        &mut self,
        code: CloseCode,
        output: &mut Vec<u8>,
        keys: &mut K,
    ) -> Result<(), Error>
        ensures ok { OnOk result (Leaves (close_step (reading_of self.old).connection (Some (code, []))) (reading_of self.new).connection output.old.items output.new.items) }
        ensures err { IfErr result (GivesError (close_step (reading_of self.old).connection (Some (code, [])))) }
        ensures err_output { OnErr result (output.new.items ≡ output.old.items) }
        ensures kept { reading_of self.new ≡ record (reading_of self.old) { connection = (reading_of self.new).connection } }
    {
        let frame = CloseFrame { code, reason: "" };
        self.context.close(Some(frame), output, keys)
    }

    /// Takes what is at the front of the bytes that have come. An answer that it requires goes to the output.
    pub fn next<K: MaskKeys>(&mut self, output: &mut Vec<u8>, keys: &mut K) -> Arrival
        ensures found { Finds (look (reading_of self.old)) result (reading_of self.new) }
        ensures answered { Answers (look (reading_of self.old)) result output.old.items output.new.items }
    {
        match self.frame.take() {
            Some(frame) => self.go_on(frame),
            None => self.begin(output, keys),
        }
    }

    /// Begins a frame, once its header is complete.
    fn begin<K: MaskKeys>(&mut self, output: &mut Vec<u8>, keys: &mut K) -> Arrival
        requires { self.old.frame ≡ None }
        ensures found { Finds (on_header (reading_of self.old) (decode_header (reading_of self.old).input)) result (reading_of self.new) }
        ensures answered { Answers (on_header (reading_of self.old) (decode_header (reading_of self.old).input)) result output.old.items output.new.items }
    {
        match FrameHeader::parse(self.input.as_slice()) {
            Ok(Some((header, length))) => self.judge(&header, length, output, keys),
            Ok(None) => Arrival::Nothing,
            Err(_) => Arrival::Breach(Breach::Protocol),
        }
    }

    /// Takes a frame with this header, if it is allowed.
    fn judge<K: MaskKeys>(
        &mut self,
        header: &FrameHeader,
        length: u64,
        output: &mut Vec<u8>,
        keys: &mut K,
    ) -> Arrival
        requires { self.old.frame ≡ None }
        ensures found { Finds (on_header (reading_of self.old) (Ok (Some (header.now, length)))) result (reading_of self.new) }
        ensures answered { Answers (on_header (reading_of self.old) (Ok (Some (header.now, length)))) result output.old.items output.new.items }
    {
        if !may_come(self.role, self.coming.is_some(), header, length) {
            return Arrival::Breach(Breach::Protocol);
        }
        match header.opcode {
            OpCode::Control(_) => self.control(output, keys),
            OpCode::Data(kind) => self.data(kind, header, length),
        }
    }

    /// Takes a control frame, once it is complete.
    fn control<K: MaskKeys>(&mut self, output: &mut Vec<u8>, keys: &mut K) -> Arrival
        requires { self.old.frame ≡ None }
        ensures found { Finds (on_control (reading_of self.old) (read_step self.old.context (bytes_of self.old.input))) result (reading_of self.new) }
        ensures answered { Answers (on_control (reading_of self.old) (read_step self.old.context (bytes_of self.old.input))) result output.old.items output.new.items }
    {
        match self.input.read_frame(&mut self.context, output, keys) {
            Ok(FrameStatus::Partial(_)) => Arrival::Nothing,
            Ok(FrameStatus::Complete(step)) => {
                self.input.take(step.consumed);
                controlled(&step)
            }
            Err(error) => {
                self.forget();
                refused(&error)
            }
        }
    }

    /// Takes a data frame: as a whole, if it is a whole message and has come, otherwise what has come of it.
    fn data(&mut self, kind: Data, header: &FrameHeader, length: u64) -> Arrival
        requires { self.old.frame ≡ None }
        ensures { Finds (on_data (reading_of self.old) header.now length kind) result (reading_of self.new) }
    {
        self.input.take(header.len(length));
        let come = self.input.len() as u64;
        if kind == Data::Binary && header.is_final && is_short(length) && length <= come {
            return self.whole(length as usize, header.mask);
        }
        self.begin_message(kind);
        self.go_on(Frame {
            left: length,
            key: header.mask,
            is_final: header.is_final,
        })
    }

    /// Begins a message, if a frame of this kind does.
    fn begin_message(&mut self, kind: Data)
        ensures { reading_of self.new ≡ record (reading_of self.old) { message = begun kind (reading_of self.old).message } }
    {
        match kind {
            Data::Binary => self.coming = Some(Coming::new(self.alloc, Kind::Binary)),
            Data::Text => self.coming = Some(Coming::new(self.alloc, Kind::Text)),
            Data::Continue => {}
        }
    }

    /// Takes a binary message that is one frame and has come, of a given size.
    fn whole(&mut self, count: usize, key: Option<[u8; 4]>) -> Arrival
        requires { count ≤ length (bytes_of self.old.input) }
        ensures message { IsMessage result (apply_mask_if key (take count (bytes_of self.old.input))) }
        ensures left { reading_of self.new ≡ record (reading_of self.old) { input = drop count (reading_of self.old).input; message = None } }
    {
        self.coming = None;
        self.input.unmask(count, key);
        let message = Blob::copy(self.alloc, self.input.front(count));
        self.input.take(count);
        match message {
            Ok(message) => Arrival::Message(message),
            Err(_) => Arrival::NoMemory,
        }
    }

    /// Takes what has come of a data frame.
    fn go_on(&mut self, frame: Frame) -> Arrival
        requires { self.old.frame ≡ None }
        ensures { Finds (on_payload (reading_of self.old) frame) result (reading_of self.new) }
    {
        let Some(mut coming) = self.coming.take() else {
            return Arrival::Breach(Breach::Protocol);
        };
        let count = least(frame.left, self.input.len());
        self.input.unmask(count, frame.key);
        let added = coming.add(self.input.front(count));
        self.input.take(count);
        match added {
            Ok(()) => self.after_piece(frame, coming, count),
            Err(why) => unadded(why),
        }
    }

    /// A piece of this many bytes of a frame was added to its message.
    fn after_piece(&mut self, frame: Frame, coming: Coming, count: usize) -> Arrival
        requires frame { self.old.frame ≡ None }
        requires message { self.old.coming ≡ None }
        ensures { Finds (on_added (reading_of self.old) frame count (Ok (shown coming))) result (reading_of self.new) }
    {
        if (count as u64) < frame.left {
            self.coming = Some(coming);
            self.frame = Some(rest_of(&frame, count));
            return Arrival::Nothing;
        }
        if frame.is_final {
            return coming.finish();
        }
        self.coming = Some(coming);
        Arrival::Frame
    }
}

/// The lesser of two counts.
fn least(left: u64, come: usize) -> usize
    ensures { result ≡ min left come }
{
    if left < come as u64 {
        left as usize
    } else {
        come
    }
}

/// A frame of which this many bytes more were taken.
fn rest_of(frame: &Frame, count: usize) -> Frame
    requires { count < frame.now.left }
    ensures { result ≡ rest_of frame.now count }
{
    let key = match frame.key {
        Some(key) => Some(turned(key, count)),
        None => None,
    };
    Frame {
        left: frame.left - count as u64,
        key,
        is_final: frame.is_final,
    }
}

/// The key after this many bytes.
fn turned(key: [u8; 4], count: usize) -> [u8; 4]
    ensures { result ≡ turned key count }
{
    let [a, b, c, d] = key;
    match count % 4 {
        0 => [a, b, c, d],
        1 => [b, c, d, a],
        2 => [c, d, a, b],
        _ => [d, a, b, c],
    }
}

/// Why a piece was not added.
fn unadded(why: Unadded) -> Arrival
    ensures { result ≡ unadded_found why }
{
    match why {
        Unadded::Breach(breach) => Arrival::Breach(breach),
        Unadded::NoMemory => Arrival::NoMemory,
    }
}

/// What comes of a control frame.
fn controlled(step: &Step) -> Arrival
    ensures { result ≡ step_found step.now.message }
{
    match &step.message {
        Some(Received::Close(_)) => Arrival::End,
        _ => Arrival::Frame,
    }
}

/// Why a control frame was not taken.
fn refused(error: &Error) -> Arrival
    ensures { result ≡ refusal_of error.now }
{
    match error {
        Error::OutOfMemory => Arrival::NoMemory,
        Error::Utf8 => Arrival::Breach(Breach::Utf8),
        _ => Arrival::Breach(Breach::Protocol),
    }
}
