ghost use Rattle.std.specs.Prelude.{◌≡◌, ◌∷◌, [], Some, IfOk, IfErr};
ghost use Rattle.one_history.specs.States.{first_host};

use crate::host::Host;
use crate::lock::{FREE, Lock};
use crate::rule::Recorded;
use atomic_table::{Refused, Table};
use std::alloc::{AllocFailed, Global};

impl<T: Recorded<E, A>, E, A> Lock<T, E, A> {
    /// Opens a lock over a value that stands at the empty history, and gives it with the host, which has admitted nobody.
    /// `about` is looked at by proofs alone. At `AllocFailed` there was no memory, and the value comes back.
    pub fn open(
        alloc: Global,
        value: T,
        about: &A,
    ) -> Result<(Lock<T, E, A>, Host<T, E, A>), AllocFailed<T>>
        requires legal { T.legal about.now [] }
        requires stands { T.stands about.now value [] }
        ensures about { IfOk result (λ r. r.0.about ≡ about.now) }
        ensures host { IfOk result (λ r. r.1 ≡ first_host r.0) }
        ensures back { IfErr result (λ r. r.value ≡ value) }
    {
        let slots = slot_with(alloc, value)?;
        match Table::new(alloc, &[FREE], slots, about) {
            Ok((table, place)) => Ok((
                Lock { table },
                Host {
                    place,
                    admitted: 0,
                    gathered: 0,
                },
            )),
            Err(Refused { slots }) => Err(AllocFailed {
                value: value_in_slot(slots),
            }),
        }
    }
}

// Makes the one slot, with the value.
fn slot_with<T>(alloc: Global, value: T) -> Result<Vec<Option<T>>, AllocFailed<T>>
    ensures ok { IfOk result (λ slots. slots.items ≡ Some value ∷ []) }
    ensures back { IfErr result (λ r. r.value ≡ value) }
{
    let mut slots = Vec::new(alloc);
    match slots.push(Some(value)) {
        Ok(()) => Ok(slots),
        Err(AllocFailed { value }) => {
            slots.destroy_empty();
            let Some(value) = value else { unreachable!() };
            Err(AllocFailed { value })
        }
    }
}

// Gives the value of the one slot.
fn value_in_slot<T>(mut slots: Vec<Option<T>>) -> T
    requires { (value : T) × (slots.items ≡ Some value ∷ []) }
    ensures { slots.items ≡ Some result ∷ [] }
{
    let last = slots.pop();
    slots.destroy_empty();
    let Some(slot) = last else { unreachable!() };
    let Some(value) = slot else { unreachable!() };
    value
}
