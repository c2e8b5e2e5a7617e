//! The links between members, and the messages under way on them.

use crate::message::Message;
use crate::random::Random;
use std::alloc::{AllocError, Global};
use std::collections::BTreeMap;

/// A message under way.
#[derive(Drop)]
pub struct Parcel {
    pub from: u8,
    pub to: u8,
    pub message: Message,
}

/// The messages under way, by the moment of arrival, in milliseconds, and then by the order in which they were sent.
#[derive(Drop)]
pub struct Links {
    parcels: BTreeMap<(u64, u64), Parcel>,
    sent: u64,
    lost: u64,
    loss: u64,
    random: Random,
}

impl Links {
    /// Returns empty links. Of a hundred messages, `loss` are lost.
    pub(crate) fn new(alloc: Global, loss: u64, seed: u64) -> Links {
        Links {
            parcels: BTreeMap::new(alloc),
            sent: 0,
            lost: 0,
            loss,
            random: Random::new(seed),
        }
    }

    /// Sends a message, which arrives after 5 to 24 milliseconds, or is lost; a message to oneself arrives at once.
    pub(crate) fn send(
        &mut self,
        from: u8,
        to: u8,
        message: Message,
        now: u64,
    ) -> Result<(), AllocError> {
        self.sent = self.sent.saturating_add(1);
        let delay = 5 + self.random.below(20);
        let is_lost = self.random.below(100) < self.loss;
        if from != to && is_lost {
            self.lost = self.lost.saturating_add(1);
            return Ok(());
        }
        let moment = if from == to {
            now
        } else {
            now.saturating_add(delay)
        };
        let parcel = Parcel { from, to, message };
        self.parcels.insert((moment, self.sent), parcel)?;
        Ok(())
    }

    /// Returns when the next message arrives.
    pub(crate) fn next_moment(&self) -> Option<u64> {
        let ((moment, _), _) = self.parcels.first_key_value()?;
        Some(*moment)
    }

    /// Removes and returns the message that arrives next.
    pub(crate) fn take_next(&mut self) -> Option<Parcel> {
        let (_, parcel) = self.parcels.pop_first()?;
        Some(parcel)
    }

    /// Returns how many messages were sent, and how many of them were lost.
    pub(crate) fn counts(&self) -> (u64, u64) {
        (self.sent, self.lost)
    }
}
