//! What a session sends.
ghost use Rattle.std.specs.Prelude.{◌≡◌, None, IfOk, OnOk};
ghost use Rattle.session_core.specs.Machine.{refuses, replies_one};
ghost use Rattle.session_core.specs.Replies.{sayings_of};
ghost use Rattle.session_core.specs.Sending.{said};

use crate::machine::Machine;
use crate::parting::{Parted, cut_all};
use crate::replies::{IntoMessage, refusal, sayings_of, to_request};
use crate::state::{End, Phase, Request, Saying};
use etp_frame::Message;
use etp_values::{ErrorCode, List, NoMemory};
use keyed_requests::Sending;
use std::alloc::Global;
use store_machine::StoreCall;

impl Machine {
    /// Refuses a whole message whose content is not looked at.
    pub(crate) fn refuse_unread(
        &mut self,
        alloc: Global,
        request: &Request,
        message: Message,
        code: ErrorCode,
    ) -> Result<Option<StoreCall>, NoMemory>
        ensures call { IfOk result (λ call. call ≡ None) }
        ensures state { OnOk result (self.new ≡ refuses request.now code self.old) }
    {
        drop(message);
        self.refuse(alloc, request, code)?;
        Ok(None)
    }

    /// Refuses a whole message.
    pub(crate) fn refuse(
        &mut self,
        alloc: Global,
        request: &Request,
        code: ErrorCode,
    ) -> Result<(), NoMemory>
        ensures { OnOk result (self.new ≡ refuses request.now code self.old) }
    {
        let message = refusal(alloc, code)?;
        self.reply_one(alloc, request, message)
    }

    /// Replies with a single message.
    pub(crate) fn reply_one(
        &mut self,
        alloc: Global,
        request: &Request,
        message: Message,
    ) -> Result<(), NoMemory>
        ensures { OnOk result (self.new ≡ replies_one request.now message self.old) }
    {
        let mut sayings = Vec::new(alloc);
        sayings.push(to_request(message))?;
        self.say(alloc, request, List::from_vec(sayings))
    }

    /// Sends what a protocol answers a request, and the notices after it.
    pub(crate) fn say_sendings<M: IntoMessage + Drop>(
        &mut self,
        alloc: Global,
        request: &Request,
        sendings: List<Sending<M>>,
    ) -> Result<(), NoMemory>
        ensures { OnOk result (self.new ≡ said request.now (sayings_of M.wrapped sendings) self.old) }
    {
        let sayings = sayings_of(alloc, sendings)?;
        self.say(alloc, request, sayings)
    }

    /// Queues a reply or notices, split into parts that take the session's next ids. Ends the session when the ids run out.
    pub(crate) fn say(
        &mut self,
        alloc: Global,
        request: &Request,
        sayings: List<Saying>,
    ) -> Result<(), NoMemory>
        ensures { OnOk result (self.new ≡ said request.now sayings self.old) }
    {
        let Parted { parts, blobs } = cut_all(alloc, self.limit, self.number, self.blobs, sayings)?;
        self.blobs = blobs;
        let ids = self.out.number(request, self.next_id, parts)?;
        self.next_id = ids.next;
        if ids.spent {
            self.phase = Phase::Ended(End::IdsSpent);
        }
        Ok(())
    }
}
