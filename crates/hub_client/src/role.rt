ghost use Rattle.std.specs.Prelude.{◌≡◌, ◌≤◌, Some};
ghost use Rattle.hub_client.specs.Roles.{has_bit, role_name, role_of};

use std::fmt;

/// The standing of a user, as the hub tells others.
#[derive(Clone, Copy, Debug, Drop, PartialEq, Eq)]
pub enum Role {
    /// The hub itself.
    Hub,
    /// Who owns the hub.
    Owner,
    /// An operator above others.
    SuperUser,
    /// An operator.
    Operator,
    /// A user with an account.
    Registered,
    /// A program.
    Bot,
    /// Any other user.
    User,
}

impl Role {
    /// Gives the highest role among those that the bits of a client type name; `User` where they name none.
    pub fn of(client_type: u32) -> Role
        ensures { result ≡ role_of client_type }
    {
        if has_bit(client_type, 32) {
            Role::Hub
        } else if has_bit(client_type, 16) {
            Role::Owner
        } else if has_bit(client_type, 8) {
            Role::SuperUser
        } else if has_bit(client_type, 4) {
            Role::Operator
        } else if has_bit(client_type, 2) {
            Role::Registered
        } else if has_bit(client_type, 1) {
            Role::Bot
        } else {
            Role::User
        }
    }

    /// Gives its name: one word.
    pub fn name(self) -> &'static str
        ensures { result.now ≡ role_name self }
    {
        match self {
            Role::Hub => "hub",
            Role::Owner => "owner",
            Role::SuperUser => "superuser",
            Role::Operator => "operator",
            Role::Registered => "registered",
            Role::Bot => "bot",
            Role::User => "user",
        }
    }
}

/// Tests whether a number has the bit of this value, which is a power of 2.
fn has_bit(number: u32, value: u32) -> bool
    requires { 1 ≤ value }
    ensures { result ≡ has_bit number value }
{
    number / value % 2 == 1
}

impl fmt::Display for Role {
    ghost output = { λ role. Some (role_name role) };

    fn fmt<W: fmt::Write>(&self, f: &mut fmt::Formatter<W>) -> fmt::Result {
        f.write_str(self.name())
    }
}
