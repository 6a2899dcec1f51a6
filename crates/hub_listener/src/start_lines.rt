// What is said when a server begins to listen.
ghost use Rattle.std.specs.Prelude.{◌≡◌, ◌↔◌, ◌+◌, ℕ, Option, IsSome, Some, IfSome};
ghost use Rattle.log.specs.declared.level.Level.TheVariants.{Warn, Info};
ghost use Rattle.hub_warnings.specs.Clocks.{IsToldBy};
ghost use Rattle.hub_warnings.specs.Logged.{said_level, said_line};
ghost use Rattle.hub_listener.specs.Descriptors.{AreFew, few_text};

use crate::limits::DescriptorLimits;
use hub_warnings::{Moment, Said, Start, WallClock, say};
use log::{Level, Log};
use server_tasks::descriptors_needed;
use std::fmt;
use std::fmt::{Display, Formatter};
use std::net::SocketAddr;

/// A warning that the system allows too few descriptors, as
/// `2026-11-25T13:07:11Z 512 users need 544 descriptors, and the system allows 256`.
#[derive(Clone, Copy)]
pub struct FewDescriptors {
    /// The second in which it is said.
    pub moment: Moment,
    /// The number of users that the settings admit.
    pub users: u32,
    /// The number of descriptors that a server needs for them.
    pub needed: u64,
    /// The number of descriptors that the system allows.
    pub allowed: u64,
}

impl Display for FewDescriptors {
    ghost output = { λ few. Some (few_text few) };

    fn fmt<W: fmt::Write>(&self, f: &mut Formatter<W>) -> fmt::Result {
        let moment = self.moment;
        let users = self.users;
        let needed = self.needed;
        let allowed = self.allowed;
        write!(
            f,
            "{moment} {users} users need {needed} descriptors, and the system allows {allowed}"
        )
    }
}

/// Warns, on this log, where the system allows fewer descriptors than a server needs for so many users. Returns what was said.
pub fn warn_of_descriptors<R: WallClock + DescriptorLimits, L: Log>(
    rt: &R,
    log: &L,
    users: u32,
) -> Option<Said<FewDescriptors>>
    ensures said { (allowed : Option ℕ) × R.allows rt.now allowed × (IsSome result ↔ AreFew users allowed) }
    ensures level { IfSome result (λ said. said_level said ≡ Warn) }
    ensures moment { IfSome result (λ said. IsToldBy R.reads rt.now (said_line said).moment) }
    ensures users { IfSome result (λ said. (said_line said).users ≡ users) }
    ensures needed { IfSome result (λ said. (said_line said).needed ≡ users + 32) }
    ensures few { IfSome result (λ said. AreFew users (Some (said_line said).allowed)) }
{
    warn_of_few(rt, log, users, rt.allowed_descriptors().into_inner())
}

/// Warns, on this log, where these are fewer descriptors than a server needs for so many users. Returns what was said.
fn warn_of_few<C: WallClock, L: Log>(
    clock: &C,
    log: &L,
    users: u32,
    allowed: Option<u64>,
) -> Option<Said<FewDescriptors>>
    ensures said { IsSome result ↔ AreFew users allowed }
    ensures level { IfSome result (λ said. said_level said ≡ Warn) }
    ensures moment { IfSome result (λ said. IsToldBy C.reads clock.now (said_line said).moment) }
    ensures users { IfSome result (λ said. (said_line said).users ≡ users) }
    ensures needed { IfSome result (λ said. (said_line said).needed ≡ users + 32) }
    ensures allowed { IfSome result (λ said. Some (said_line said).allowed ≡ allowed) }
{
    let needed = descriptors_needed(users);
    let allowed = allowed?;
    if needed <= allowed {
        return None;
    }
    let few = FewDescriptors {
        moment: Moment::now(clock),
        users,
        needed,
        allowed,
    };
    Some(say(log, Level::Warn, few))
}

/// Says on this log that a server of the settings with this path, for so many users, begins to listen at this address, and how many
/// descriptors it needs and may have. Returns what was said.
pub fn say_start<'a, R: WallClock + DescriptorLimits, L: Log>(
    rt: &R,
    log: &L,
    settings: &'a str,
    address: SocketAddr,
    users: u32,
) -> Said<Start<'a>>
    ensures level { said_level result ≡ Info }
    ensures moment { IsToldBy R.reads rt.now (said_line result).moment }
    ensures settings { (said_line result).settings.now ≡ settings.now }
    ensures address { (said_line result).address ≡ address }
    ensures needed { (said_line result).needed ≡ users + 32 }
    ensures allowed { R.allows rt.now (said_line result).allowed }
{
    let allowed = rt.allowed_descriptors().into_inner();
    say(
        log,
        Level::Info,
        start_line(rt, settings, address, users, allowed),
    )
}

/// Makes the line at the start of a server that may have so many descriptors.
fn start_line<'a, C: WallClock>(
    clock: &C,
    settings: &'a str,
    address: SocketAddr,
    users: u32,
    allowed: Option<u64>,
) -> Start<'a>
    ensures moment { IsToldBy C.reads clock.now result.moment }
    ensures settings { result.settings.now ≡ settings.now }
    ensures address { result.address ≡ address }
    ensures needed { result.needed ≡ users + 32 }
    ensures allowed { result.allowed ≡ allowed }
{
    let moment = Moment::now(clock);
    Start {
        moment,
        settings,
        address,
        needed: descriptors_needed(users),
        allowed,
    }
}
