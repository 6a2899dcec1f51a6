use std::collections::LinkedList;

/// The verdict on a connection by its line.
#[derive(Clone, Copy, Debug, PartialEq, Eq)]
pub enum Verdict {
    /// The connection is kept, and may send more.
    Kept,
    /// The connection is shut out: nothing that it sends is heard any more.
    Ended,
}

/// A call that is asked of a hub. Together with replies the calls make a history, in which the promises of the hub are
/// stated; moments are seconds.
#[derive(Drop)]
pub enum Call {
    /// A connection asks to be admitted: the peer's address, its challenge, the moment.
    Join([u8; 4], [u8; 24], u64),
    /// A connection sent a line: the connection, the bytes without line feed, the moment.
    Line(u64, LinkedList<u8>, u64),
    /// A connection leaves.
    Quit(u64),
    /// A connection asks for lines that wait for it: the connection, how many at most.
    Take(u64, u64),
}

/// The reply to a call.
#[derive(Drop)]
pub enum Reply {
    /// The join was accepted, as the connection of this number.
    Joined(u64),
    /// The hub is full: as many connections are open as it admits.
    Full,
    /// The joins are spent: as many were accepted as can be counted.
    JoinsSpent,
    /// The verdict that the line brought on its connection.
    Said(Verdict),
    /// The connection left.
    Left,
    /// The bytes that were given, of so many lines, and whether no more will ever come.
    Took(LinkedList<u8>, u64, bool),
}

/// A call with who made it and what was answered.
#[derive(Drop)]
pub struct Entry {
    /// The number of the caller.
    pub caller: u64,
    /// The call that was asked.
    pub call: Call,
    /// The reply that was given.
    pub reply: Reply,
}
