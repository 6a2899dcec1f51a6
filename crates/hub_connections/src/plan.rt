ghost use Rattle.std.specs.Prelude.{◌≡◌, ◌≤◌, ◌+◌, IfOk, IfErr};
ghost use Rattle.hub_connections.specs.Faults.{IsServerFault};

use hub_endings::Ending;
use hub_settings::Settings;
use hub_shared::{Host, Hub};
use hub_warnings::Warnings;
use session_hash::SessionHash;
use std::alloc::AllocGlobal;

/// What a server has from its start to its end.
#[derive(Drop)]
pub struct Plan<'a, 'p, H, R, C, L> {
    pub rt: &'a R,
    pub clock: &'a C,
    pub settings: &'a Settings,
    pub hash: &'a H,
    /// The path of the settings' file, where the journal is to have it.
    pub settings_file: Option<&'p str>,
    pub warnings: &'a Warnings<L>,
}

/// Opens the hub of these settings, and gives who admits visitors to it. Refused only where memory runs out.
pub fn open<H: SessionHash, R: AllocGlobal, C, L>(
    plan: &Plan<'_, '_, H, R, C, L>,
) -> Result<(Hub<H>, Host<H>), Ending>
    ensures set { IfOk result (λ r. r.0.setup ≡ plan.now.settings.now.hub) }
    ensures hashed { IfOk result (λ r. r.0.hash ≡ plan.now.hash.now) }
    ensures host { IfOk result (λ r. r.1 ≡ record { home = r.0.home; admitted = 0 }) }
    ensures ending { IfErr result IsServerFault }
{
    let setup = plan.settings.setup().clone().map_err(|_| Ending::Memory)?;
    Hub::open(plan.rt.alloc(), setup, plan.hash).map_err(|_| Ending::Memory)
}

/// Gives the number of slots: one more joins where the hub is full, to be told so.
pub fn slot_count(settings: &Settings) -> usize
    ensures each { result ≡ settings.now.hub.plain.max_users + 1 }
    ensures few { result ≤ 65536 }
{
    settings.setup().max_users() as usize + 1
}
