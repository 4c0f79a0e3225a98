//! The points of a message that is not sent yet.
ghost use Rattle.std.specs.Prelude.{◌≡◌, ◌++◌, ◌∷◌, [], List, OnOk};
ghost use Rattle.etp_values.specs.declared.point.Point.{Point};
ghost use Rattle.client_core.specs.declared.ask.Ask.TheVariants as asked;
ghost use Rattle.client_forms.specs.Filling.{Adds, Holds, takes};
ghost use Rattle.client_forms.specs.Loading.{is_none};

use channel_points::point_bytes;
use client_core::Ask;
use etp_values::{ChannelPoint, List, NoMemory, Point};
use std::alloc::Global;
use std::mem;

/// The greatest number of points in one message.
const MOST_POINTS: usize = 1_000;

/// The greatest size of these points, in bytes.
const MOST_BYTES: u64 = 8_388_608;

/// Points of one channel for one message.
#[derive(Drop)]
pub(crate) struct Batch {
    channel: i64,
    points: Vec<ChannelPoint>,
    bytes: u64,
}

impl Batch {
    /// A message of a channel that has no points yet.
    pub(crate) fn new(alloc: Global, channel: i64) -> Batch
        ensures { (result.channel ≡ channel) × Holds result [] }
    {
        Batch {
            channel,
            points: Vec::new(alloc),
            bytes: 0,
        }
    }

    pub(crate) fn channel(&self) -> i64
        ensures { result ≡ self.now.channel }
    {
        self.channel
    }

    pub(crate) fn is_empty(&self) -> bool
        ensures { (held : List Point) → Holds self.now held → result ≡ is_none held }
    {
        self.points.is_empty()
    }

    /// Whether the message takes this point as well. It always takes a first point.
    fn takes(&self, point: &Point) -> bool
        ensures { (held : List Point) → Holds self.now held → result ≡ takes held point.now }
    {
        self.points.is_empty()
            || self.points.len() < MOST_POINTS
                && self.bytes.saturating_add(point_bytes(point)) <= MOST_BYTES
    }

    fn push(&mut self, point: Point) -> Result<(), NoMemory>
        ensures { OnOk result ((self.new.channel ≡ self.old.channel)
            × ((held : List Point) → Holds self.old held → Holds self.new (held ++ point ∷ []))) }
    {
        let bytes = self.bytes.saturating_add(point_bytes(&point));
        self.points.push(ChannelPoint {
            channel: self.channel,
            point,
        })?;
        self.bytes = bytes;
        Ok(())
    }

    /// Adds a point. If the message does not take it, it begins the next one, and the message is returned.
    pub(crate) fn add(&mut self, alloc: Global, point: Point) -> Result<Option<Batch>, NoMemory>
        ensures { (held : List Point) → Holds self.old held → Adds result self.old self.new held point }
    {
        if self.takes(&point) {
            self.push(point)?;
            return Ok(None);
        }
        let mut next = Batch::new(alloc, self.channel);
        next.push(point)?;
        Ok(Some(mem::replace(self, next)))
    }

    /// The ask that sends the points.
    pub(crate) fn into_ask(self) -> Ask
        ensures { result ≡ asked.Load self.points.items }
    {
        Ask::Load(List::from_vec(self.points))
    }
}
