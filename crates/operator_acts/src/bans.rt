ghost use Rattle.std.specs.Prelude.{◌≡◌, ◌≤◌, [], OnOk, OnErr, IfErr, false, is_some, length};
ghost use Rattle.operator_acts.specs.Bans.{WhyRefused, ban_on, is_full, left_of_bans, max_bans, with_ban, without_ban};

use crate::ban::Ban;
use crate::fault::BanRefused;
use crate::left::Left;
use adc_ids::Cid;
use std::alloc::Global;
use std::collections::BTreeMap;
use std::marker::Model;

/// The most client identifiers that may have a ban.
const MAX_BANS: usize = 1_024;

/// The bans that are held, at most one on each client identifier and on at most 1,024 of them. A ban
/// whose time has run out is held and counts until it is removed. A look-up takes no walk over all of
/// them, whatever the identifiers are.
#[derive(Drop)]
pub struct Bans {
    held: BTreeMap<Cid, Ban>,
}

impl Model for Bans {
    ghost use Rattle.std.specs.Prelude.{ℕ, List};
    ghost use Rattle.operator_acts.specs.declared.ban.Ban.{Ban};

    ghost Value = { List (List ℕ × Ban) };

    ghost use Rattle.operator_acts.specs.BansView.{bans_in, AreHeld};

    ghost view = { bans_in };

    ghost invariant = { AreHeld };
}

impl Bans {
    /// Makes a list of no bans. It takes no memory.
    pub fn new(alloc: Global) -> Bans
        ensures { result ≡ [] }
    {
        Bans {
            held: BTreeMap::new(alloc),
        }
    }

    /// Bans a client identifier from the moment `now` on for so many seconds, or for good where there
    /// are 0. A ban that is held on it is replaced.
    ///
    /// Refused, in this order: with `Full` where 1,024 other client identifiers have a ban; with
    /// `Memory` where memory runs out. The bans are then as before.
    pub fn add(&mut self, cid: Cid, seconds: u32, now: u64) -> Result<(), BanRefused>
        ensures ok { OnOk result (self.new ≡ with_ban self.old cid (record { seconds = seconds; moment = now })) }
        ensures room { OnOk result (is_full self.old cid ≡ false) }
        ensures refused { IfErr result (λ refused. WhyRefused refused self.old cid) }
        ensures unchanged { OnErr result (self.new ≡ self.old) }
    {
        let ban = Ban {
            seconds,
            moment: now,
        };
        self.put(cid, ban)
    }

    /// Holds a ban on a client identifier, in the place of one that is held on it. It is refused as by [`Bans::add`].
    pub fn put(&mut self, cid: Cid, ban: Ban) -> Result<(), BanRefused>
        ensures ok { OnOk result (self.new ≡ with_ban self.old cid ban) }
        ensures room { OnOk result (is_full self.old cid ≡ false) }
        ensures refused { IfErr result (λ refused. WhyRefused refused self.old cid) }
        ensures unchanged { OnErr result (self.new ≡ self.old) }
    {
        if self.held.len() >= MAX_BANS && !self.held.contains_key(&cid) {
            return Err(BanRefused::Full);
        }
        match self.held.insert(cid, ban) {
            Ok(_) => Ok(()),
            Err(_) => Err(BanRefused::Memory),
        }
    }

    /// Ends the ban on a client identifier, and answers whether one was held. It takes no memory.
    pub fn remove(&mut self, cid: Cid) -> bool
        ensures held { result ≡ is_some (ban_on self.old cid) }
        ensures left { self.new ≡ without_ban self.old cid }
    {
        self.held.remove(&cid).is_some()
    }

    /// Gives what is left at the moment `now` of the ban on a client identifier. A ban of s seconds from a
    /// moment m on, with s above 0, refuses at moments below m + s, which is at most 2^64 - 1. It takes
    /// no memory.
    #[tactic(auto, unfolding(crate::specs::Bans::left_of_bans))]
    pub fn left(&self, cid: Cid, now: u64) -> Left
        ensures { result ≡ left_of_bans self.now cid now }
    {
        match self.held.get(&cid) {
            Some(ban) => ban.left_at(now),
            None => Left::Free,
        }
    }

    /// Answers whether a ban is held on a client identifier.
    pub fn holds(&self, cid: Cid) -> bool
        ensures { result ≡ is_some (ban_on self.now cid) }
    {
        self.held.contains_key(&cid)
    }

    /// Answers whether there is no room for a ban on a client identifier: none is held on it, and 1,024 others have one.
    pub fn is_full(&self, cid: Cid) -> bool
        ensures { result ≡ is_full self.now cid }
    {
        !self.holds(cid) && self.held.len() >= MAX_BANS
    }

    /// Counts the client identifiers that have a ban.
    pub fn count(&self) -> usize
        ensures count { result ≡ length self.now }
        ensures few { result ≤ max_bans }
    {
        self.held.len()
    }
}
