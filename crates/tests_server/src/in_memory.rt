// The whole server over memory, with four threads: what each of its connections was written, byte for byte.
pub(crate) mod desk;
pub(crate) mod port;
mod promise;
pub(crate) mod wire;

use crate::in_memory::desk::{Desk, EndedBy, EndedTicket, Gone};
use crate::in_memory::port::{Door, Lobby, WireTicket};
use crate::in_memory::promise::serve_paid;
use crate::in_memory::wire::{Client, Cue, PORT, Wire};
use crate::machine::*;
use crate::run::settings;
use crate::warnings::shape;
use hub_settings::Settings;
use tests_support::{Transcript, transcript_of};

const SETTINGS: &str = "hash = \"first24\"\nthreads = 4\nstop_after = 6\nmax_users = 8\n";

/// The places of the two who chat.
const ANA: usize = 0;

const BOB: usize = 1;

/// The place of one who sends too long a line, and the number of bytes without a line feed that are too many.
const EVE: usize = 2;

const TOO_MANY: usize = 65_537;

/// The clients in the order in which they come: two who chat; one who sends too long a line; one who cannot agree on a hash; one who closes at
/// once; and one who closes once it is greeted.
const NAMES: [&str; 6] = ["ana", "bob", "eve", "dan", "fay", "gil"];

/// What each says and hears. The first comes from 127.0.0.2, the second from 127.0.0.3, and so on; each who chats is shown with its own address.
const TALK: &str = r"
ana is greeted AAAB
ana says BINF AAAB ID<P0> PD<P0> NIana I40.0.0.0
bob is greeted AAAC
bob says BINF AAAC ID<P1> PD<P1> NIbob I40.0.0.0
ana and bob hear BINF AAAB ID<P0> NIana I4127.0.0.2 | BINF AAAC ID<P1> NIbob I4127.0.0.3
ana says BMSG AAAB hi
ana and bob hear BMSG AAAB hi
bob says BMSG AAAC hello
ana and bob hear BMSG AAAC hello
bob hears IQUI AAAB
eve is greeted AAAD
dan says HSUP ADBASE -> ISTA 247 No\scommon\shash
gil is greeted AAAG
";

/// Ana waits for Bob, says something, and leaves once he has answered.
const ANA_CUES: &[Cue] = &[
    Cue::Now,
    Cue::Now,
    Cue::Sent(b"BINF AAAC ", BOB),
    Cue::Sent(b"BMSG AAAC ", BOB),
];

/// Bob comes once Ana is there, answers her, and leaves after her.
const BOB_CUES: &[Cue] = &[
    Cue::Entered(ANA),
    Cue::Now,
    Cue::Sent(b"BMSG AAAB ", ANA),
    Cue::Gone(ANA),
];

/// The others wait for nobody.
const NO_CUES: &[Cue] = &[];

/// What the server says, and what it warns of, times apart.
const SAID: &[u8] = b"listening 127.0.0.1:4111\njoins 6 present 0\n";

const WARNED: &[u8] = b"TIME 127.0.0.4:4111 a session ended by TooLong\n";

/// The outcome of a server.
#[derive(Drop)]
struct Served {
    status: u8,
    output: Vec<u8>,
    errors: Vec<u8>,
    gone: Vec<Gone>,
    tickets: Vec<EndedTicket>,
}

impl Served {
    /// Answers whether it was refused memory.
    fn met_memory(&self) -> bool {
        self.status == 4
            || (0..self.errors.len()).any(|start| self.errors[start..].starts_with(b"Memory"))
    }
}

/// Gives what each says and hears.
fn talk<R: ServerMachine>(rt: &R) -> Vec<Transcript> {
    let mut all = Vec::new(rt.alloc());
    for name in NAMES {
        let mut one = transcript_of(rt.alloc(), TALK, name).expect(rt, name);
        if all.len() == EVE {
            again!(rt; one.said.reserve(TOO_MANY));
            for _byte in 0..TOO_MANY {
                again!(rt; one.said.push(b'x'));
            }
        }
        assert!(rt; tests_support::push(&mut all, one).is_ok());
    }
    all
}

/// Gives the clients that say this.
fn clients_of(alloc: Global, talk: &[Transcript]) -> Result<Vec<Client<'_>>, AllocError> {
    let mut clients = Vec::with_capacity(alloc, talk.len())?;
    for (place, one) in talk.iter().enumerate() {
        let (cues, enters) = match place {
            ANA => (ANA_CUES, b"BINF AAAB ".as_slice()),
            BOB => (BOB_CUES, b"BINF AAAC ".as_slice()),
            _ => (NO_CUES, b"BINF ".as_slice()),
        };
        clients.push(Client {
            says: &one.said,
            cues,
            enters,
        })?;
    }
    Ok(clients)
}

/// Serves these clients.
fn serve<R: ServerMachine>(rt: &R, talk: &[Transcript]) -> Result<Served, AllocError> {
    let clients = clients_of(rt.alloc(), talk)?;
    let settings = settings(rt.alloc(), SETTINGS)?;
    let hash = Arc::new(rt.alloc(), First24)?;
    let mut output = Vec::with_capacity(rt.alloc(), 1_024)?;
    let mut errors = Vec::with_capacity(rt.alloc(), 1_024)?;
    let desk = Desk::new(rt.alloc(), clients.len())?;
    let door = Door {
        rt,
        alloc: rt.alloc(),
        desk: &desk,
        clients: &clients,
        place: SocketAddrV4::new(Ipv4Addr::LOCALHOST, PORT),
    };
    let status = serve_at_door(rt, &settings, hash, door, &mut output, &mut errors);
    let (gone, tickets) = desk.into_left();
    Ok(Served {
        status,
        output,
        errors,
        gone,
        tickets,
    })
}

/// Serves those who come in by this door, and gives the status.
fn serve_at_door<'a, R: ServerMachine>(
    rt: &'a R,
    settings: &Settings,
    hash: Arc<First24>,
    door: Door<'a, R>,
    output: &mut Vec<u8>,
    errors: &mut Vec<u8>,
) -> u8 {
    serve_paid::<Wire<'a, R>, WireTicket<'a, R>, Lobby<'a, R>, R, Vec<u8>, Vec<u8>>(
        rt, settings, hash, [0; 32], door, output, errors,
    )
}

/// Serves these clients, and once more where memory was refused.
fn serves<R: ServerMachine>(rt: &R, talk: &[Transcript]) -> Served {
    match serve(rt, talk) {
        Ok(served) if !served.met_memory() => served,
        _ => again!(rt; serve(rt, talk)),
    }
}

/// Stops the test unless each hears what it should, and all tickets have ended by `served`: nobody was refused, lost or cut off.
fn all_are_served<R: ServerMachine>(rt: &R) {
    let talk = talk(rt);
    let served = serves(rt, &talk);
    assert!(rt; served.status == 0, "{}", served.status);
    assert!(rt; served.output.as_slice() == SAID);
    let shape = again!(rt; shape(rt.alloc(), &served.errors));
    assert!(rt; shape.as_slice() == WARNED);
    assert!(rt; served.gone.len() == talk.len());
    for gone in served.gone.iter() {
        let wanted = talk.get(gone.place).expect(rt, "a client");
        assert!(rt; gone.sent == wanted.heard, "{}", gone.place);
    }
    assert!(rt; served.tickets.len() == talk.len());
    for place in 0..talk.len() {
        let mut ended = served.tickets.iter().filter(|ticket| ticket.place == place);
        assert!(rt;
            ended
                .next()
                .is_some_and(|ticket| ticket.by == EndedBy::Served),
            "{place}"
        );
    }
}

#[test]
fn each_is_written_what_the_rules_owe_it(rt: HostRuntime) {
    all_are_served(&rt);
}
