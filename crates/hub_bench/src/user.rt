ghost use Rattle.std.specs.Prelude.{◌≡◌, IfOk};
ghost use Rattle.hub_rules.specs.Prepared.{prepared_line};
ghost use Rattle.session_hash.specs.First24.{first_24};

use crate::shared_hub::SharedHub;
use hub_core::{LineRefused, Prepared, Setup, prepare};
use hub_shared::{Pass, Visitor};
use session_hash::First24;
use std::alloc::{AllocError, Global};
use std::sync::Wait;

/// A user of a hub.
#[derive(Drop)]
pub struct User<'a> {
    shared: &'a SharedHub,
    pass: Pass<First24>,
    challenge: [u8; 24],
    // The last two digits of its session identifier.
    digits: [u8; 2],
    ghost here: { pass.home ≡ shared.now.hub.home },
    ghost challenged: { pass.challenge ≡ challenge },
}

impl<'a> User<'a> {
    /// Joins as a visitor, whose session identifier will end in these digits.
    pub fn new<R: Wait>(
        rt: &R,
        alloc: Global,
        shared: &'a SharedHub,
        visitor: Visitor<First24>,
        digits: [u8; 2],
    ) -> Result<User<'a>, AllocError>
        requires { visitor.home ≡ shared.now.hub.home }
    {
        let challenge = [0; 24];
        match shared
            .hub
            .join(rt, alloc, visitor, [127, 0, 0, 1], challenge, 0)
        {
            Ok(pass) => Ok(User {
                shared,
                pass,
                challenge,
                digits,
            }),
            Err(_) => Err(AllocError),
        }
    }

    /// Gives what it says to all.
    pub fn line(&self, alloc: Global) -> Result<Vec<u8>, AllocError> {
        let mut line = Vec::from_slice(alloc, b"BMSG AA")?;
        line.extend_from_slice(&self.digits)?;
        line.extend_from_slice(b" what\\sa\\sfine\\sday\\sto\\sshare\\sa\\sfile\\sor\\stwo")?;
        Ok(line)
    }

    /// Makes a line ready and sends it.
    pub fn say<R: Wait>(&mut self, rt: &R, alloc: Global, line: &[u8]) -> Result<(), AllocError> {
        let shared = self.shared;
        let Ok(line) = prepare_line(alloc, &shared.setup, self.challenge, line) else {
            return Err(AllocError);
        };
        let said = shared.hub.line(rt, alloc, &mut self.pass, &line, 0);
        drop(line);
        match said {
            Ok(_) => Ok(()),
            Err(_) => Err(AllocError),
        }
    }

    /// Takes up to 256 lines, and tells how many they were.
    pub fn take<R: Wait>(&mut self, rt: &R, unread: &mut Vec<u8>) -> Result<u64, AllocError> {
        unread.clear();
        match self.shared.hub.take(rt, &mut self.pass, 256, unread) {
            Ok(taken) => Ok(taken.lines),
            Err(_) => Err(AllocError),
        }
    }
}

#[tactic(auto, unfolding(hub_rules::specs::Prepared::prepared_line))]
fn prepare_line(
    alloc: Global,
    setup: &Setup,
    challenge: [u8; 24],
    line: &[u8],
) -> Result<Prepared, LineRefused>
    ensures { IfOk result (λ line. line ≡ prepared_line setup.now first_24 challenge line.bytes) }
{
    prepare(alloc, setup, &First24, challenge, line)
}
