ghost use Rattle.std.specs.Prelude.{◌≡◌, ◌≤◌, ◌↔◌, IfSome, IsSome, IsTrue, IsFalse};
ghost use Rattle.hub_rules.specs.declared.history.Reply.TheVariants.{Took};
ghost use Rattle.history_check.specs.Written.{reply_of};

use hub_core::Verdict;
use std::marker::Model;

/// The number of lines that a take asks for at most: 1 to 256.
#[derive(Clone, Copy)]
pub struct LineCount {
    count: usize,
}

impl Model for LineCount {
    ghost use Rattle.std.specs.Prelude.{ℕ, ◌≤◌};

    ghost Value = { ℕ };

    ghost view = { λ c. c.count };

    ghost invariant = { λ c. (1 ≤ c.count) × (c.count ≤ 256) };

    ghost inverse = { λ n. record { count = n } };
}

impl LineCount {
    /// Makes a count; `None` where it is not from 1 to 256.
    pub fn new(count: usize) -> Option<LineCount>
        ensures variant { IsSome result ↔ ((1 ≤ count) × (count ≤ 256)) }
        ensures count { IfSome result (λ c. c ≡ count) }
    {
        if 1 <= count && count <= 256 {
            Some(LineCount { count })
        } else {
            None
        }
    }

    /// Gives the count as a number.
    pub fn get(self) -> usize
        ensures same { result ≡ self }
        ensures some { 1 ≤ result }
        ensures few { result ≤ 256 }
    {
        self.count
    }
}

/// A call as it is written. Connections are numbered from 1 on by their joins, and moments are seconds.
#[derive(Drop)]
pub enum WrittenCall {
    /// A connection asks to be admitted: the peer's address, its challenge, the moment.
    Join([u8; 4], [u8; 24], u64),
    /// A connection sent a line: the connection, the bytes without line feed, the moment.
    Line(u64, Vec<u8>, u64),
    /// A connection leaves.
    Quit(u64),
    /// A connection asks for lines that wait for it: the connection, how many at most.
    Take(u64, LineCount),
}

/// A reply as it is written.
#[derive(Drop)]
pub enum WrittenReply {
    /// The join was accepted, as the connection of this number.
    Joined(u64),
    /// The hub is full: as many connections are open as it admits.
    Full,
    /// The joins are spent: as many were accepted as can be counted.
    JoinsSpent,
    /// The verdict that the line brought on its connection.
    Said(Verdict),
    /// The connection left.
    Left,
    /// The bytes that were given, of so many lines, and whether no more will ever come.
    Took(Vec<u8>, u64, bool),
}

/// A call with who made it and what was answered.
#[derive(Drop)]
pub struct WrittenEntry {
    /// The number of the caller.
    pub caller: u64,
    /// The call.
    pub call: WrittenCall,
    /// The reply.
    pub reply: WrittenReply,
}

/// Answers whether two replies are the same, to the byte.
pub(crate) fn is_same(one: &WrittenReply, other: &WrittenReply) -> bool
    ensures same { IsTrue result → reply_of one.now ≡ reply_of other.now }
    ensures other { IsFalse result → (reply_of one.now ≡ reply_of other.now → ⊥) }
{
    match one {
        WrittenReply::Joined(one) => matches!(other, WrittenReply::Joined(other) if one == other),
        WrittenReply::Full => matches!(other, WrittenReply::Full),
        WrittenReply::JoinsSpent => matches!(other, WrittenReply::JoinsSpent),
        WrittenReply::Said(one) => matches!(other, WrittenReply::Said(other) if one == other),
        WrittenReply::Left => matches!(other, WrittenReply::Left),
        WrittenReply::Took(bytes, lines, ended) => took_same(bytes, *lines, *ended, other),
    }
}

fn took_same(bytes: &[u8], lines: u64, ended: bool, other: &WrittenReply) -> bool
    ensures same { IsTrue result → Took bytes.now lines ended ≡ reply_of other.now }
    ensures other { IsFalse result → (Took bytes.now lines ended ≡ reply_of other.now → ⊥) }
{
    match other {
        WrittenReply::Took(others, count, end) => {
            bytes == others.as_slice() && lines == *count && ended == *end
        }
        _ => false,
    }
}
