// A hub and those who call it.
ghost use Rattle.std.specs.Prelude.{◌≡◌, ◌∷◌, [], IfOk, IfErr};
ghost use Rattle.std.specs.Arc.{arc_value};
ghost use Rattle.hub_rules.specs.Prepared.{prepared_line};
ghost use Rattle.session_hash.specs.First24.{first_24};

use crate::hub::shared_setup;
use crate::refusal::*;
use hub_core::{LineRefused, Look, TakeRefused, Taken};
use hub_shared::{Hub, Pass};
use tests_support::{GREETS, once};

pub(crate) type Host = hub_shared::Host<First24>;

pub(crate) type Visitor = hub_shared::Visitor<First24>;

/// The answer to a join. Who is refused comes back.
pub(crate) type Joined = Result<Guest, (JoinRefused, Visitor)>;

/// The lines of those who log in, in this order.
pub(crate) const ENTERS: [&str; 4] = [
    "BINF AAAB ID<P0> PD<P0> NIana",
    "BINF AAAC ID<P1> PD<P1> NIbob",
    "BINF AAAD ID<P2> PD<P2> NIcy",
    "BINF AAAE ID<P3> PD<P3> NIdan",
];

/// A hub with its setup.
#[derive(Drop)]
pub(crate) struct Hall {
    pub(crate) alloc: Global,
    pub(crate) setup: Arc<Setup>,
    pub(crate) hub: Hub<First24>,
    pub(crate) ghost set: { hub.setup ≡ arc_value setup },
}

/// A pass with the challenge of its join.
#[derive(Drop)]
pub(crate) struct Guest {
    pub(crate) pass: Pass<First24>,
    pub(crate) challenge: [u8; 24],
    pub(crate) ghost challenged: { pass.challenge ≡ challenge },
}

pub(crate) fn open_hall(rt: &(impl Abort + Print), alloc: Global, max_users: u32) -> (Hall, Host)
    ensures { result.1 ≡ record { home = result.0.hub.home; admitted = 0 } }
{
    let setup = shared_setup(rt, alloc, &options_for(max_users));
    let shared = again!(rt; setup.clone());
    let (hub, host) = match Hub::open(alloc, shared, &First24) {
        Ok(all) => all,
        Err(_) => {
            assert!(rt; tell(rt, "hub_shared::Hub::open"), "not written");
            again!(rt; Hub::open(alloc, again!(rt; setup.clone()), &First24))
        }
    };
    (Hall { alloc, setup, hub }, host)
}

/// Joins once.
fn join_once<R: Wait>(rt: &R, hall: &Hall, visitor: Visitor) -> Joined
    requires here { visitor.home ≡ hall.now.hub.home }
    ensures guest { IfOk result (λ guest. guest.pass.home ≡ hall.now.hub.home) }
    ensures back { IfErr result (λ r. r.1.home ≡ hall.now.hub.home) }
{
    let challenge = [0; 24];
    let joined = hall
        .hub
        .join(rt, hall.alloc, visitor, [127, 0, 0, 1], challenge, 0);
    match joined {
        Ok(pass) => Ok(Guest { pass, challenge }),
        Err(refused) => Err(refused),
    }
}

/// Joins, and where memory is refused, once more with the visitor that came back.
pub(crate) fn join<R: Wait + Abort + Print>(rt: &R, hall: &Hall, visitor: Visitor) -> Joined
    requires here { visitor.home ≡ hall.now.hub.home }
    ensures guest { IfOk result (λ guest. guest.pass.home ≡ hall.now.hub.home) }
    ensures back { IfErr result (λ r. r.1.home ≡ hall.now.hub.home) }
{
    match join_once(rt, hall, visitor) {
        Err((JoinRefused::Memory, visitor)) => {
            assert!(rt; tell(rt, "hub_shared::Hub::join"), "not written");
            join_once(rt, hall, visitor)
        }
        answer => answer,
    }
}

#[tactic(auto, unfolding(hub_rules::specs::Prepared::prepared_line))]
fn prepare_line(
    rt: &impl Abort,
    alloc: Global,
    setup: &Setup,
    challenge: [u8; 24],
    bytes: &[u8],
) -> Prepared
    ensures { result ≡ prepared_line setup.now first_24 challenge result.bytes }
{
    again!(rt; prepare(alloc, setup, &First24, challenge, bytes))
}

/// Gives what a guest sees of the hub.
fn view_of<R: Wait>(rt: &R, hall: &Hall, guest: &mut Guest) -> (Stage, u64, u64)
    requires { guest.old.pass.home ≡ hall.now.hub.home }
    ensures { guest.new.pass.home ≡ hall.now.hub.home }
{
    let look = hall.hub.look(rt, &mut guest.pass);
    (look.stage, look.present, look.waiting)
}

/// Makes a line ready and sends it once.
pub(crate) fn sends<R: Wait + Abort>(
    rt: &R,
    hall: &Hall,
    guest: &mut Guest,
    bytes: &[u8],
) -> Result<Verdict, LineRefused>
    requires { guest.old.pass.home ≡ hall.now.hub.home }
    ensures { guest.new.pass.home ≡ hall.now.hub.home }
{
    let line = prepare_line(rt, hall.alloc, &hall.setup, guest.challenge, bytes);
    hall.hub.line(rt, hall.alloc, &mut guest.pass, &line, 0)
}

/// Sends a line that is kept, and where memory is refused, once more: the speaker then sees what it saw.
pub(crate) fn says<R: Wait + Abort + Print>(rt: &R, hall: &Hall, guest: &mut Guest, bytes: &[u8])
    requires { guest.old.pass.home ≡ hall.now.hub.home }
    ensures { guest.new.pass.home ≡ hall.now.hub.home }
{
    let said = once!(rt; "hub_shared::Hub::line", LineRefused::Memory,
        view_of(rt, hall, guest), sends(rt, hall, guest, bytes));
    assert!(rt; said == Verdict::Kept, "{said:?}");
}

/// Takes what waits, up to 256 lines, once.
pub(crate) fn takes<R: Wait>(
    rt: &R,
    hall: &Hall,
    guest: &mut Guest,
    heard: &mut Vec<u8>,
) -> Result<Taken, TakeRefused>
    requires { guest.old.pass.home ≡ hall.now.hub.home }
    ensures { guest.new.pass.home ≡ hall.now.hub.home }
{
    hall.hub.take(rt, &mut guest.pass, 256, heard)
}

/// Takes what waits, up to 256 lines; where memory is refused, as much waits as before.
pub(crate) fn hears<R: Wait + Abort + Print>(rt: &R, hall: &Hall, guest: &mut Guest) -> Vec<u8>
    requires { guest.old.pass.home ≡ hall.now.hub.home }
    ensures { guest.new.pass.home ≡ hall.now.hub.home }
{
    let mut heard = Vec::new(hall.alloc);
    once!(rt; "hub_shared::Hub::take", TakeRefused::Memory,
        (view_of(rt, hall, guest), heard.len()), takes(rt, hall, guest, &mut heard));
    heard
}

pub(crate) fn looks<R: Wait>(rt: &R, hall: &Hall, guest: &mut Guest) -> Look
    requires { guest.old.pass.home ≡ hall.now.hub.home }
    ensures { guest.new.pass.home ≡ hall.now.hub.home }
{
    hall.hub.look(rt, &mut guest.pass)
}

/// Joins and logs in.
pub(crate) fn join_and_login<R: Wait + Abort + Print>(
    rt: &R,
    hall: &Hall,
    visitor: Visitor,
    login: &str,
) -> Guest
    requires { visitor.home ≡ hall.now.hub.home }
    ensures { result.pass.home ≡ hall.now.hub.home }
{
    let Ok(mut guest) = join(rt, hall, visitor) else {
        panic!(rt; "not admitted")
    };
    says(rt, hall, &mut guest, GREETS.as_bytes());
    says(rt, hall, &mut guest, &spell(rt, hall.alloc, login, 0));
    guest
}

/// Opens a hub for so many, where ana and bob enter and hear of that.
pub(crate) fn open_for_two<R: Wait + Abort + Print>(
    rt: &R,
    alloc: Global,
    max_users: u32,
) -> (Hall, Host, Guest, Guest)
    ensures host { result.1 ≡ record { home = result.0.hub.home; admitted = 2 } }
    ensures ana { result.2.pass.home ≡ result.0.hub.home }
    ensures bob { result.3.pass.home ≡ result.0.hub.home }
{
    let (hall, mut host) = open_hall(rt, alloc, max_users);
    let mut ana = join_and_login(rt, &hall, host.admit(&hall.hub), ENTERS[0]);
    let mut bob = join_and_login(rt, &hall, host.admit(&hall.hub), ENTERS[1]);
    hears(rt, &hall, &mut ana);
    hears(rt, &hall, &mut bob);
    (hall, host, ana, bob)
}

/// Leaves.
pub(crate) fn leave<R: Wait>(rt: &R, hall: &Hall, guest: Guest) -> Visitor
    requires { guest.pass.home ≡ hall.now.hub.home }
    ensures { result.home ≡ hall.now.hub.home }
{
    let Guest { pass, challenge: _ } = guest;
    hall.hub.quit(rt, pass)
}

/// Lets both compare what they have seen.
pub(crate) fn compare(hall: &Hall, left: Guest, right: Guest) -> (Guest, Guest)
    requires left { left.pass.home ≡ hall.now.hub.home }
    requires right { right.pass.home ≡ hall.now.hub.home }
    ensures left { result.0.pass.home ≡ hall.now.hub.home }
    ensures right { result.1.pass.home ≡ hall.now.hub.home }
{
    let Guest { pass, challenge } = left;
    let Guest {
        pass: other_pass,
        challenge: other_challenge,
    } = right;
    let (pass, other_pass) = hall.hub.meet(pass, other_pass);
    let other = Guest {
        pass: other_pass,
        challenge: other_challenge,
    };
    (Guest { pass, challenge }, other)
}

/// Puts two visitors in a vector.
pub fn both(rt: &impl Abort, alloc: Global, first: Visitor, second: Visitor) -> Vec<Visitor>
    ensures { result.items ≡ first ∷ second ∷ [] }
{
    let mut all = again!(rt; Vec::with_capacity(alloc, 2));
    all.push_reserved(first);
    all.push_reserved(second);
    all
}
