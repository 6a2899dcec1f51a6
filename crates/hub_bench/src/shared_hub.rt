ghost use Rattle.std.specs.Prelude.{◌≡◌, IfOk};
ghost use Rattle.std.specs.Arc.{arc_value};

use hub_core::{Options, PlainOptions, Setup};
use hub_shared::{Host, Hub};
use session_hash::First24;
use std::alloc::{AllocError, Global};
use std::io;
use std::sync::Arc;

/// A hub with its setup.
#[derive(Drop)]
pub struct SharedHub {
    pub setup: Arc<Setup>,
    pub hub: Hub<First24>,
    pub ghost set: { hub.setup ≡ arc_value setup },
}

/// Opens a hub, and gives it with its host, who has admitted nobody.
pub fn open_hub(alloc: Global) -> io::Result<(SharedHub, Host<First24>)>
    ensures { IfOk result (λ r. r.1 ≡ record { home = r.0.hub.home; admitted = 0 }) }
{
    let setup = setup(alloc)?;
    match Hub::open(alloc, setup.clone()?, &First24) {
        Ok((hub, host)) => Ok((SharedHub { setup, hub }, host)),
        Err(_) => Err(AllocError.into()),
    }
}

/// Makes what hubs are set up with here.
pub fn setup(alloc: Global) -> io::Result<Arc<Setup>> {
    let options = Options {
        plain: PlainOptions::for_users(900),
        ..Options::named("Hub")
    };
    match Setup::new(alloc, &options) {
        Ok(setup) => Ok(Arc::new(alloc, setup)?),
        Err(_) => Err(AllocError.into()),
    }
}
