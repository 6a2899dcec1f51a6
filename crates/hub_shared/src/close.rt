ghost use Rattle.std.specs.Prelude.{◌≡◌, ◌+◌, ◌^◌, ◌<◌, ◌↔◌, ◌++◌, [], length, IsOk, IfOk, IfErr};
ghost use Rattle.std.specs.List.{All};
ghost use Rattle.one_history.specs.States.{callers_of, home_of};
ghost use Rattle.hub_shared.specs.Callers.{seat_of};
ghost use Rattle.hub_shared.specs.Close.{HasQuit, Settled};

use crate::host::Host;
use crate::hub::Hub;
use crate::hub_key::{HostSeat, HubLock};
use crate::visitor::Visitor;
use session_hash::SessionHash;

/// The cause for which a hub was not closed.
#[derive(Clone, Copy, Debug, PartialEq, Eq)]
pub enum CloseRefused {
    /// Visitors are missing: not as many came back as were admitted.
    NotAlone = 1,
}

/// The report of a hub at its end.
#[derive(Clone, Copy, Debug, PartialEq, Eq)]
pub struct Report {
    /// The number of joins that were accepted.
    pub joins: u64,
    /// The number of users who are present: none.
    pub present: u64,
}

impl<H: SessionHash> Hub<H> {
    /// Closes the hub once all visitors are back. There is then one legal history of all callers. It waits for nothing,
    /// and takes no memory. Condition: the host and the visitors are of this hub.
    ///
    /// Refused: `NotAlone` exactly where there are not as many visitors as were admitted. Then all is handed back.
    pub fn close(
        self,
        host: Host<H>,
        visitors: Vec<Visitor<H>>,
    ) -> Result<Report, (CloseRefused, Hub<H>, Host<H>, Vec<Visitor<H>>)>
        requires here { host.home ≡ self.home }
        requires visitors { All (λ v. v.home ≡ self.home) visitors.items }
        ensures ok { IsOk result ↔ (length visitors.items ≡ host.admitted) }
        ensures settled { IfOk result (λ report. Settled self.setup (H.digest_of self.hash) visitors.items report.joins) }
        ensures nobody { IfOk result (λ report. report.present ≡ 0) }
        ensures back { IfErr result (λ r. (r.1 ≡ self) × (r.2 ≡ host) × (r.3.items ≡ visitors.items)) }
    {
        if host.admitted() != visitors.len() as u64 {
            return Err((CloseRefused::NotAlone, self, host, visitors));
        }
        Ok(end(self.into_lock(), host.into_seat(), visitors))
    }
}

fn end<H: SessionHash>(lock: HubLock<H>, host: HostSeat<H>, mut visitors: Vec<Visitor<H>>) -> Report
    requires here { host.home ≡ home_of lock }
    requires alone { host.gathered ≡ [] }
    requires all { length visitors.items ≡ host.admitted }
    requires visitors { All (λ v. v.home ≡ home_of lock) visitors.items }
    ensures settled { Settled lock.about.setup.value (H.digest_of lock.about.hash.value) visitors.items result.joins }
    ensures nobody { result.present ≡ 0 }
{
    let mut host = host;
    gather_all(&lock, &mut host, &mut visitors);
    let Ok(core) = lock.close(host, visitors) else {
        unreachable!()
    };
    Report {
        joins: core.joins(),
        present: core.totals().users,
    }
}

// Gives the host all visitors' seats.
fn gather_all<H: SessionHash>(
    lock: &HubLock<H>,
    host: &mut HostSeat<H>,
    visitors: &mut Vec<Visitor<H>>,
)
    requires here { host.old.home ≡ home_of lock.now }
    requires alone { host.old.gathered ≡ [] }
    requires visitors { All (λ v. v.home ≡ home_of lock.now) visitors.old.items }
    requires room { length visitors.old.items < 2 ^ 64 }
    ensures host { host.new ≡ record host.old { gathered = callers_of seat_of visitors.old.items } }
    ensures quit { All (λ g. HasQuit g.mine) host.new.gathered }
    ensures none { visitors.new.items ≡ [] }
{
    while let Some(visitor) = visitors.pop() {
        host.gather(lock, visitor.into_idle());
    }
}
