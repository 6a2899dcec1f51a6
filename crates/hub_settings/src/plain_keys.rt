ghost use Rattle.std.specs.Prelude.{◌≡◌, ◌≤◌, length};
ghost use Rattle.hub_rules.specs.Configured.{most_users};

use crate::hash_name::HashName;
use hub_setup::Options;
use std::net::SocketAddrV4;

/// The values of the keys of a settings file that are no lists.
#[derive(Clone, Copy)]
pub(crate) struct PlainKeys<'a> {
    /// The hub, as yet without accounts and menu.
    pub(crate) options: Options<'a>,
    pub(crate) listen: SocketAddrV4,
    pub(crate) hash: HashName,
    pub(crate) tables: &'a str,
    pub(crate) threads: u32,
    pub(crate) stop_after: u32,
    pub(crate) seed_file: &'a str,
    ghost named: { 1 ≤ length options.name.now },
    ghost some: { 1 ≤ options.plain.max_users },
    ghost few: { options.plain.max_users ≤ most_users },
}
