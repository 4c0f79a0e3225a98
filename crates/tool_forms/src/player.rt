//! Plays frames: the sessions of a capture over one store.
ghost use Rattle.std.specs.Prelude.{◌≡◌, IfOk, OnOk, length};
ghost use Rattle.tool_forms.specs.Play.{first_world, state_of, has_ended};
ghost use Rattle.tool_forms.specs.Plays.{Plays};
ghost use Rattle.tool_forms.specs.Sound.{IsSound};

use crate::tag::TagState;
use crate::turns::play_at;
use etp_capture::{Frame, kinds};
use etp_values::{Copied, NoMemory};
use server_config::Config;
use session_core::steps;
use std::alloc::Global;
use std::collections::BTreeMap;
use std::marker::Model;
use store_machine::{Store, number_laws};

/// A store and the sessions of a capture, by their tags. The tags are kept in order, so that a look-up takes few steps
/// however many a capture has.
pub struct Player {
    config: Config,
    store: Store,
    tags: BTreeMap<u32, TagState>,
}

/// Written out, so that whatever holds one drops it by a single call.
impl Drop for Player {
    fn drop(self) {
        let Player {
            config,
            store,
            tags,
        } = self;
        drop(config);
        drop(store);
        drop(tags);
    }
}

impl Model for Player {
    ghost use Rattle.std.specs.Prelude.{◌≡◌};
    ghost use Rattle.tool_forms.specs.Play.{World};

    ghost Value = { World };

    ghost view = { λ p. record { config = p.config; journal = p.store.journal; tags = p.tags.entries } };

    ghost invariant = { λ p. p.store.config ≡ p.config };
}

impl Player {
    /// A new store, and no session.
    pub fn new(alloc: Global, config: Config) -> Result<Player, NoMemory>
        ensures world { IfOk result (λ p. p ≡ first_world config) }
        ensures sound { IfOk result (λ p. IsSound p) }
    {
        let store = Store::new(alloc, config.copy(alloc)?)?;
        Ok(Player {
            config,
            store,
            tags: BTreeMap::new(alloc),
        })
    }

    /// How many entries the journal has.
    pub(crate) fn entries(&self) -> u64
        ensures { result ≡ length self.now.journal }
    {
        self.store.entries()
    }

    /// Plays a frame, and appends the frames that answer it. Returns whether the frame is refused. After `NoMemory` what the player holds
    /// and what was appended is unspecified.
    pub fn play(
        &mut self,
        alloc: Global,
        frame: &Frame,
        answers: &mut Vec<Frame>,
    ) -> Result<bool, NoMemory>
        requires { IsSound self.old }
        ensures played { IfOk result (λ refused. Plays refused self.old frame.now self.new answers.old.items answers.new.items) }
        ensures sound { OnOk result (IsSound self.new) }
    {
        if frame.kind == kinds::OUT
            || frame.kind == kinds::ENDED
            || has_ended(&self.tags, frame.tag)
        {
            return Ok(true);
        }
        // For the proof only: what the tags' sessions know stays right, and no entry has the number that the next session will have.
        number_laws();
        steps();
        let _entries = self.store.entries();
        let state = self.tags.insert(frame.tag, TagState::Ended)?;
        let state = play_at(alloc, &self.config, &mut self.store, state, frame, answers)?;
        self.tags.insert(frame.tag, state)?;
        Ok(false)
    }
}

/// Whether the session of a tag has ended.
fn has_ended(tags: &BTreeMap<u32, TagState>, tag: u32) -> bool
    ensures { result ≡ has_ended (state_of tag tags.now.entries) }
{
    match tags.get(&tag) {
        Some(TagState::Ended) => true,
        Some(TagState::Open(_)) => false,
        None => false,
    }
}
