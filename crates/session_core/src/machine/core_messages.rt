//! Messages of Core.
ghost use Rattle.std.specs.Prelude.{◌≡◌, OnOk};
ghost use Rattle.session_core.specs.Machine.{on_core, on_ping, on_request_session, opened};

use crate::machine::Machine;
use crate::state::{End, Live, Phase, Request};
use etp_frame::Message;
use etp_values::{Boxed, ErrorCode, List, NoMemory};
use msg_core::{CoreMessage, OpenSession, Pong, RequestSession};
use session_rows::{Format, Opening, opening_of};
use std::alloc::Global;

impl Machine {
    pub(crate) fn on_core(
        &mut self,
        alloc: Global,
        live: Live,
        request: &Request,
        moment: i64,
        message: CoreMessage,
    ) -> Result<(), NoMemory>
        ensures { OnOk result (self.new ≡ on_core live request.now moment message self.old) }
    {
        match message {
            CoreMessage::RequestSession(message) => {
                self.on_request_session(alloc, live, request, moment, message)
            }
            CoreMessage::OpenSession(_) => {
                self.refuse(alloc, request, ErrorCode::InvalidMessageType)
            }
            CoreMessage::CloseSession(_) => {
                self.phase = Phase::Ended(End::Closed);
                Ok(())
            }
            CoreMessage::Ping(_) => self.on_ping(alloc, live, request, moment),
            CoreMessage::Pong(_) => Ok(()),
            CoreMessage::ProtocolException(_) => Ok(()),
            CoreMessage::Acknowledge(_) => Ok(()),
        }
    }

    fn on_ping(
        &mut self,
        alloc: Global,
        live: Live,
        request: &Request,
        moment: i64,
    ) -> Result<(), NoMemory>
        ensures { OnOk result (self.new ≡ on_ping live request.now moment self.old) }
    {
        match live {
            Live::Waiting => self.refuse(alloc, request, ErrorCode::InvalidState),
            Live::Open => {
                let pong = Pong {
                    current_date_time: moment,
                };
                self.reply_one(
                    alloc,
                    request,
                    Message::Core(Boxed::new(alloc, CoreMessage::Pong(pong))?),
                )
            }
        }
    }

    fn on_request_session(
        &mut self,
        alloc: Global,
        live: Live,
        request: &Request,
        moment: i64,
        message: RequestSession,
    ) -> Result<(), NoMemory>
        ensures { OnOk result (self.new ≡ on_request_session live request.now moment message self.old) }
    {
        match live {
            Live::Waiting => {
                let opening = opening_of(alloc, &self.config, self.number, moment, message)?;
                self.open(alloc, request, opening)
            }
            Live::Open => self.refuse(alloc, request, ErrorCode::InvalidState),
        }
    }

    fn open(&mut self, alloc: Global, request: &Request, opening: Opening) -> Result<(), NoMemory>
        ensures { OnOk result (self.new ≡ opened request.now opening self.old) }
    {
        match opening {
            Opening::Refused(code) => {
                self.phase = Phase::Ended(End::Refused(code));
                self.refuse(alloc, request, code)
            }
            Opening::Opened {
                accepted,
                formats,
                limit,
                reply,
            } => {
                self.limit = limit;
                self.open_with(alloc, request, accepted, formats, reply)
            }
        }
    }

    fn open_with(
        &mut self,
        alloc: Global,
        request: &Request,
        accepted: List<i32>,
        formats: List<Format>,
        reply: OpenSession,
    ) -> Result<(), NoMemory>
        ensures { let opening = Opening.Opened accepted formats self.old.limit reply in
            OnOk result (self.new ≡ opened request.now opening self.old) }
    {
        self.phase = Phase::Live(Live::Open);
        self.accepted = accepted;
        self.formats = formats;
        self.reply_one(
            alloc,
            request,
            Message::Core(Boxed::new(alloc, CoreMessage::OpenSession(reply))?),
        )
    }
}
