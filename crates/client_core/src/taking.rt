//! What a client does with a message.
ghost use Rattle.std.specs.Prelude.{◌≡◌, ◌∷◌, [], Some, Ok, true, IfOk, IsErr, OnOk, map};
ghost use Rattle.client_core.specs.Answers.{answer, ask_ended, due_at};
ghost use Rattle.client_core.specs.Joining.{grown};
ghost use Rattle.client_core.specs.Notices.{notice};
ghost use Rattle.client_core.specs.Taking.{by_answer, by_changes, by_kind, code_of, core_closes, core_opens, core_silent, core_whole, fails, first_code, has_objects, hears, in_order, is_closing, is_fresh, is_opening, is_silent, may_come, on_message, on_part, on_read, on_whole, refusal, stops, store_joins, subscribe_whole, told};
ghost use Rattle.client_core.specs.declared.got.ClientError.TheVariants as refused;
ghost use Rattle.client_core.specs.declared.got.Got.TheVariants as got;
ghost use Rattle.etp_frame.specs.Joining.{IsJoinFault};
ghost use Rattle.etp_frame.specs.Reading.{IsFault};

use crate::answers::answer;
use crate::got::{ClientError, Got};
use crate::hearing::Hearing;
use crate::joining::{grown, is_broken, is_exception};
use crate::notices::notice;
use crate::state::{Due, Kept, Phase};
use channel_store::ChangeMsg;
use etp_frame::flags::FINAL_PART;
use etp_frame::{FrameError, Header, JoinError, Joined, Message, read_message};
use etp_schema::Side;
use etp_values::{Boxed, List, Named, NoMemory};
use msg_channel::{ChannelSubscribeMessage, SubscriptionsStopped};
use msg_core::{CoreMessage, ErrorInfo, ProtocolException};
use msg_store::StoreMessage;
use std::alloc::Global;

/// What a message returns, or why it is refused.
pub(crate) type Answer = Result<List<Got>, ClientError>;

// ---- messages at first sight

fn core_silent(message: &CoreMessage) -> bool
    ensures { result ≡ core_silent message.now }
{
    match message {
        CoreMessage::Acknowledge(_) => true,
        CoreMessage::Ping(_) => true,
        _ => false,
    }
}

/// Whether a message gives nothing, even between parts.
fn is_silent(message: &Message) -> bool
    ensures { result ≡ is_silent message.now }
{
    match message {
        Message::Core(message) => core_silent(message.get()),
        _ => false,
    }
}

fn core_closes(message: &CoreMessage) -> bool
    ensures { result ≡ core_closes message.now }
{
    matches!(message, CoreMessage::CloseSession(_))
}

fn is_closing(message: &Message) -> bool
    ensures { result ≡ is_closing message.now }
{
    match message {
        Message::Core(message) => core_closes(message.get()),
        _ => false,
    }
}

fn core_opens(message: &CoreMessage) -> bool
    ensures { result ≡ core_opens message.now }
{
    matches!(message, CoreMessage::OpenSession(_))
}

fn is_opening(message: &Message) -> bool
    ensures { result ≡ is_opening message.now }
{
    match message {
        Message::Core(message) => core_opens(message.get()),
        _ => false,
    }
}

fn may_come(phase: Phase, message: &Message) -> bool
    ensures { result ≡ may_come phase message.now }
{
    match phase {
        Phase::Waiting => is_opening(message) || is_exception(message),
        Phase::Open => !is_opening(message),
        Phase::Ended => false,
    }
}

/// Whether a server's message of this id may come after one of that: ids are odd and rise.
fn is_fresh(last: i64, id: i64) -> bool
    ensures { result ≡ is_fresh last id }
{
    last < id && id % 2 == 1
}

fn store_joins(message: &StoreMessage) -> bool
    ensures { result ≡ store_joins message.now }
{
    match message {
        StoreMessage::GetDataObjectsResponse(_) => true,
        StoreMessage::Chunk(_) => true,
        _ => false,
    }
}

/// Whether a message is one of objects or of the chunks of their data.
fn has_objects(message: &Message) -> bool
    ensures { result ≡ has_objects message.now }
{
    match message {
        Message::Store(message) => store_joins(message.get()),
        _ => false,
    }
}

// ---- exceptions

fn first_code(errors: &Named<ErrorInfo>) -> i32
    ensures { result ≡ first_code errors.now }
{
    match errors.as_slice().first() {
        Some(error) => error.1.code,
        None => 0,
    }
}

/// The code of the whole request's refusal, otherwise that of its first key, otherwise 0.
fn code_of(exception: &ProtocolException) -> i32
    ensures { result ≡ code_of exception.now }
{
    match &exception.error {
        Some(error) => error.code,
        None => first_code(&exception.errors),
    }
}

// ---- what is returned

/// Nothing, for a message that is not looked at.
fn nothing(alloc: Global, message: Message) -> Result<Answer, NoMemory>
    ensures { IfOk result (λ a. a ≡ Ok []) }
{
    drop(message);
    Ok(Ok(List::new(alloc)))
}

/// An answer alone.
fn one(alloc: Global, got: Got) -> Result<List<Got>, NoMemory>
    ensures { IfOk result (λ gots. gots ≡ got ∷ []) }
{
    let mut gots = Vec::new(alloc);
    gots.push(got)?;
    Ok(List::from_vec(gots))
}

/// Out of memory, and the message is not looked at any more.
fn no_memory(message: Message) -> Result<Answer, NoMemory>
    ensures { IsErr result }
{
    drop(message);
    Err(NoMemory)
}

/// Changes, to be handed on.
fn handed(alloc: Global, changes: List<ChangeMsg>) -> Result<Answer, NoMemory>
    ensures { IfOk result (λ a. a ≡ Ok (map got.Change changes)) }
{
    let mut gots = Vec::new(alloc);
    for change in changes.into_vec() {
        gots.push(Got::Change(change))?;
    }
    Ok(Ok(List::from_vec(gots)))
}

/// Why bytes are not a message; running out of memory is not such a cause.
fn frame_error(error: FrameError) -> Result<ClientError, NoMemory>
    ensures value { IfOk result (λ e. e ≡ refused.Frame error) }
    ensures fault { OnOk result (IsFault error) }
{
    match error {
        FrameError::NoMemory => Err(NoMemory),
        other => Ok(ClientError::Frame(other)),
    }
}

/// Why the joiner refuses a message; running out of memory is not such a cause.
fn join_error(error: JoinError) -> Result<ClientError, NoMemory>
    ensures value { IfOk result (λ e. e ≡ refused.Join error) }
    ensures fault { OnOk result (IsJoinFault error) }
{
    match error {
        JoinError::NoMemory => Err(NoMemory),
        other => Ok(ClientError::Join(other)),
    }
}

impl Hearing {
    /// Refuses a message, after which nothing is accepted any more.
    fn fail(&mut self, error: ClientError) -> Answer
        ensures answer { result ≡ (fails error self.old).result }
        ensures state { self.new ≡ (fails error self.old).state }
    {
        self.phase = Phase::Ended;
        Err(error)
    }

    /// Refuses a message that is not looked at.
    fn refuse_unseen(&mut self, message: Message, error: ClientError) -> Answer
        ensures answer { result ≡ (fails error self.old).result }
        ensures state { self.new ≡ (fails error self.old).state }
    {
        drop(message);
        self.fail(error)
    }

    /// Takes the bytes of a message.
    #[tactic(auto, unfolding(crate::specs::Taking::hears))]
    pub(crate) fn take(&mut self, alloc: Global, bytes: &[u8]) -> Result<Answer, NoMemory>
        ensures answer { IfOk result (λ a. a ≡ (hears self.old bytes.now).result) }
        ensures state { OnOk result (self.new ≡ (hears self.old bytes.now).state) }
    {
        if self.ended() {
            return Ok(self.fail(ClientError::State));
        }
        match read_message(alloc, bytes, Side::Server) {
            Ok((header, message)) => self.on_read(alloc, &header, message),
            Err(error) => {
                let cause = frame_error(error)?;
                Ok(self.fail(cause))
            }
        }
    }

    fn on_read(
        &mut self,
        alloc: Global,
        header: &Header,
        message: Message,
    ) -> Result<Answer, NoMemory>
        ensures answer { IfOk result (λ a. a ≡ (on_read header.now message self.old).result) }
        ensures state { OnOk result (self.new ≡ (on_read header.now message self.old).state) }
    {
        if !is_fresh(self.last, header.id) {
            return Ok(self.refuse_unseen(message, ClientError::Id(header.id)));
        }
        self.last = header.id;
        self.on_message(alloc, header, message)
    }

    fn on_message(
        &mut self,
        alloc: Global,
        header: &Header,
        message: Message,
    ) -> Result<Answer, NoMemory>
        ensures answer { IfOk result (λ a. a ≡ (on_message header.now message self.old).result) }
        ensures state { OnOk result (self.new ≡ (on_message header.now message self.old).state) }
    {
        if is_silent(&message) {
            return nothing(alloc, message);
        }
        if is_closing(&message) {
            self.phase = Phase::Ended;
            return nothing(alloc, message);
        }
        if !may_come(self.phase, &message) {
            return Ok(self.refuse_unseen(message, ClientError::State));
        }
        self.in_order(alloc, header, message)
    }

    /// A message that may come: no other may come between the parts of one.
    fn in_order(
        &mut self,
        alloc: Global,
        header: &Header,
        message: Message,
    ) -> Result<Answer, NoMemory>
        ensures answer { IfOk result (λ a. a ≡ (in_order header.now message self.old).result) }
        ensures state { OnOk result (self.new ≡ (in_order header.now message self.old).state) }
    {
        if is_broken(&self.kept, header, &message) {
            return Ok(self.refuse_unseen(message, ClientError::Join(JoinError::Interleaved)));
        }
        if has_objects(&message) {
            return self.on_objects(alloc, header, message);
        }
        self.on_part(alloc, header, message)
    }

    /// Objects or a chunk, which the joiner takes.
    fn on_objects(
        &mut self,
        alloc: Global,
        header: &Header,
        message: Message,
    ) -> Result<Answer, NoMemory>
        ensures answer { IfOk result (λ a. a ≡ (by_kind true header.now message self.old).result) }
        ensures state { OnOk result (self.new ≡ (by_kind true header.now message self.old).state) }
    {
        match self.joiner.add(alloc, header, message) {
            Ok(Joined::More) => Ok(Ok(List::new(alloc))),
            Ok(Joined::Whole(message)) => self.on_whole(alloc, header, message),
            Err(error) => {
                let cause = join_error(error)?;
                Ok(self.fail(cause))
            }
        }
    }

    /// A part, which is kept unless it is the last.
    fn on_part(
        &mut self,
        alloc: Global,
        header: &Header,
        message: Message,
    ) -> Result<Answer, NoMemory>
        ensures answer { IfOk result (λ a. a ≡ (on_part header.now message self.old).result) }
        ensures state { OnOk result (self.new ≡ (on_part header.now message self.old).state) }
    {
        let kept = self.kept.take();
        let message = grown(alloc, kept, message)?;
        if header.has_flag(FINAL_PART) {
            return self.on_whole(alloc, header, message);
        }
        self.kept = Some(Kept {
            header: *header,
            message,
        });
        Ok(Ok(List::new(alloc)))
    }

    /// A complete message.
    fn on_whole(
        &mut self,
        alloc: Global,
        header: &Header,
        message: Message,
    ) -> Result<Answer, NoMemory>
        ensures answer { IfOk result (λ a. a ≡ (on_whole header.now message self.old).result) }
        ensures state { OnOk result (self.new ≡ (on_whole header.now message self.old).state) }
    {
        match message {
            Message::Core(message) => self.on_core(alloc, header, message.into_inner()),
            Message::ChannelSubscribe(message) => self.on_channels(
                alloc,
                header,
                message.into_inner(),
            ),
            other => self.on_told(alloc, header, other),
        }
    }

    fn on_core(
        &mut self,
        alloc: Global,
        header: &Header,
        message: CoreMessage,
    ) -> Result<Answer, NoMemory>
        ensures answer { IfOk result (λ a. a ≡ (core_whole header.now message self.old).result) }
        ensures state { OnOk result (self.new ≡ (core_whole header.now message self.old).state) }
    {
        match message {
            CoreMessage::ProtocolException(exception) => {
                Ok(self.on_exception(header.correlation, exception))
            }
            other => self.on_told(alloc, header, Message::Core(Boxed::new(alloc, other)?)),
        }
    }

    fn on_channels(
        &mut self,
        alloc: Global,
        header: &Header,
        message: ChannelSubscribeMessage,
    ) -> Result<Answer, NoMemory>
        ensures answer { IfOk result (λ a. a ≡ (subscribe_whole header.now message self.old).result) }
        ensures state { OnOk result (self.new ≡ (subscribe_whole header.now message self.old).state) }
    {
        match message {
            ChannelSubscribeMessage::SubscriptionsStopped(stopped) => Ok(self.on_stop(stopped)),
            other => self.on_told(
                alloc,
                header,
                Message::ChannelSubscribe(Boxed::new(alloc, other)?),
            ),
        }
    }

    /// An exception refuses an open ask, which is over.
    fn on_exception(&mut self, id: i64, exception: ProtocolException) -> Answer
        ensures answer { result ≡ (refusal id exception (due_at id self.old.asks) self.old).result }
        ensures state { self.new ≡ (refusal id exception (due_at id self.old.asks) self.old).state }
    {
        match self.asks.due_at(id) {
            Some(_) => {
                self.asks.remove(id);
                Err(ClientError::Refused {
                    id,
                    code: code_of(&exception),
                })
            }
            None => self.fail(ClientError::Unasked(id)),
        }
    }

    /// Subscriptions have ended.
    fn on_stop(&mut self, stopped: SubscriptionsStopped) -> Answer
        ensures answer { result ≡ (stops stopped self.old).result }
        ensures state { self.new ≡ (stops stopped self.old).state }
    {
        self.channels.stop(stopped.channel_ids.as_slice());
        Err(ClientError::Stopped(stopped.reason))
    }

    /// A message that answers an ask or reports changes.
    fn on_told(
        &mut self,
        alloc: Global,
        header: &Header,
        message: Message,
    ) -> Result<Answer, NoMemory>
        ensures answer { IfOk result (λ a. a ≡ (told header.now message self.old).result) }
        ensures state { OnOk result (self.new ≡ (told header.now message self.old).state) }
    {
        match self.asks.due_at(header.correlation) {
            Some(due) => self.on_due(alloc, header, due, message),
            None => self.on_notice(alloc, header, message),
        }
    }

    /// A message that may be the answer to an open ask.
    fn on_due(
        &mut self,
        alloc: Global,
        header: &Header,
        due: Due,
        message: Message,
    ) -> Result<Answer, NoMemory>
        ensures answer { let expected = by_answer header.now message due (answer header.now.correlation due message) self.old in
            IfOk result (λ a. a ≡ expected.result) }
        ensures state { let expected = by_answer header.now message due (answer header.now.correlation due message) self.old in
            OnOk result (self.new ≡ expected.state) }
    {
        match answer(alloc, header.correlation, due, &message) {
            Ok(got) => self.on_answer(alloc, header, due, message, got),
            Err(NoMemory) => no_memory(message),
        }
    }

    /// A message with the answer that it is, if it is one.
    fn on_answer(
        &mut self,
        alloc: Global,
        header: &Header,
        due: Due,
        message: Message,
        got: Option<Got>,
    ) -> Result<Answer, NoMemory>
        ensures answer { IfOk result (λ a. a ≡ (by_answer header.now message due got self.old).result) }
        ensures state { OnOk result (self.new ≡ (by_answer header.now message due got self.old).state) }
    {
        match got {
            Some(got) => self.on_got(alloc, header.correlation, due, message, got),
            None => self.on_notice(alloc, header, message),
        }
    }

    /// The answer to an ask, for a message that is not looked at any more.
    fn on_got(
        &mut self,
        alloc: Global,
        id: i64,
        due: Due,
        message: Message,
        got: Got,
    ) -> Result<Answer, NoMemory>
        ensures answer { IfOk result (λ a. a ≡ Ok (got ∷ [])) }
        ensures state { OnOk result (self.new ≡ ask_ended id due self.old) }
    {
        drop(message);
        let gots = one(alloc, got)?;
        self.end_ask(alloc, id, due)?;
        Ok(Ok(gots))
    }

    /// The ask of this id, which waited for this, has its answer.
    fn end_ask(&mut self, alloc: Global, id: i64, due: Due) -> Result<(), NoMemory>
        ensures { OnOk result (self.new ≡ ask_ended id due self.old) }
    {
        self.asks.remove(id);
        match due {
            Due::Session => self.phase = Phase::Open,
            Due::Pong => self.asks.remove_loads(id),
            Due::Subscription(channel) => self.channels.subscribe(alloc, channel)?,
            _ => {}
        }
        Ok(())
    }

    fn on_notice(
        &mut self,
        alloc: Global,
        header: &Header,
        message: Message,
    ) -> Result<Answer, NoMemory>
        ensures answer { IfOk result (λ a. a ≡ (by_changes header.now.correlation (notice header.now message) self.old).result) }
        ensures state { OnOk result (self.new ≡ (by_changes header.now.correlation (notice header.now message) self.old).state) }
    {
        match notice(alloc, header, message)? {
            Some(changes) => self.on_changes(alloc, header.correlation, changes),
            None => Ok(self.fail(ClientError::Unasked(header.correlation))),
        }
    }

    /// Changes, which are taken into the copies and handed on.
    fn on_changes(
        &mut self,
        alloc: Global,
        correlation: i64,
        changes: List<ChangeMsg>,
    ) -> Result<Answer, NoMemory>
        ensures answer { IfOk result (λ a. a ≡ (by_changes correlation (Some changes) self.old).result) }
        ensures state { OnOk result (self.new ≡ (by_changes correlation (Some changes) self.old).state) }
    {
        if !self.channels.are_live(changes.as_slice()) {
            return Ok(self.fail(ClientError::Unasked(correlation)));
        }
        self.channels.follow_all(alloc, changes.as_slice())?;
        handed(alloc, changes)
    }
}
