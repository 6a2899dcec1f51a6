/// The request of a line that is not denied, by the stage of its connection, its type and its command.
#[derive(Clone, Copy, Debug, PartialEq, Eq)]
pub enum Request {
    /// The request to be greeted: the first SUP.
    Greeting,
    /// The request to enter: the first INF.
    Login,
    /// The request to enter by a password: a PAS.
    Password,
    /// The request to change what is known of the user: a later INF.
    Update,
    /// The request to change what the client supports: a later SUP.
    Support,
    /// The request that the hub does something: a message to the hub.
    Act,
    /// The request that others are asked: an SCH.
    Search,
    /// The request that others are told: every other message to them.
    Message,
    /// No request.
    Nothing,
}
