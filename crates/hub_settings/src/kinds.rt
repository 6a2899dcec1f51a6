/// What may stand at a key of a settings file, and what is read where the key is missing.
#[derive(Clone, Copy, Debug)]
pub enum SettingKind {
    /// A text that is not empty; by default this one.
    SomeText(&'static str),
    /// A text; by default this one.
    Text(&'static str),
    /// An IPv4 address and port, as `a.b.c.d:port`; by default this one.
    Address(&'static str),
    /// The name of a session hash, `tiger` or `first24`; by default this one.
    Hash(&'static str),
    /// True or false; by default false.
    Truth,
    /// A whole number from the first to the second; by default the third.
    Number(u32, u32, u32),
    /// A list of at most 32 tables with the keys `nick`, `password` and `operator`, by default false; by default none.
    Accounts,
    /// A list of at most 64 tables with the keys `name`, `context`, a whole number from 1 to 15, and either `text` or
    /// `separator = true`; by default none.
    Commands,
}
