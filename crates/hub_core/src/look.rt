use login_state::Stage;

/// The things that one look at a connection shows.
#[derive(Clone, Copy, Debug)]
pub struct Look {
    /// The stage to which it has come.
    pub stage: Stage,
    /// The number of users who are present.
    pub present: u64,
    /// The number of lines that wait for it.
    pub waiting: u64,
}
