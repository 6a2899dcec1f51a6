ghost use Rattle.std.specs.Prelude.{◌≡◌};

use crate::shared_hub::SharedHub;
use crate::user::User;
use hub_shared::Host;
use session_hash::First24;
use std::alloc::{AllocError, Global};
use std::io;
use std::sync::Wait;

/// The number of users who may come in.
const MOST: u64 = 1_024;

const ALPHABET: [u8; 32] = *b"ABCDEFGHIJKLMNOPQRSTUVWXYZ234567";

/// The door by which users come in.
#[derive(Drop)]
pub struct Door<'a> {
    shared: &'a SharedHub,
    host: Host<First24>,
    ghost here: { host.home ≡ shared.now.hub.home },
}

impl<'a> Door<'a> {
    pub fn new(shared: &'a SharedHub, host: Host<First24>) -> Door<'a>
        requires { host.home ≡ shared.now.hub.home }
    {
        Door { shared, host }
    }

    /// Lets so many users come in.
    pub fn let_in<R: Wait>(
        &mut self,
        rt: &R,
        alloc: Global,
        count: u32,
    ) -> io::Result<Vec<User<'a>>> {
        let mut users = Vec::with_capacity(alloc, count as usize)?;
        for _ in 0..count {
            users.push(self.enter(rt, alloc)?)?;
        }
        Ok(users)
    }

    /// Lets the next user in, who has logged in.
    fn enter<R: Wait>(&mut self, rt: &R, alloc: Global) -> io::Result<User<'a>> {
        let admitted = self.host.admitted();
        if admitted >= MOST {
            return Err(AllocError.into());
        }
        let digits = digits(admitted + 1);
        let visitor = self.host.admit(&self.shared.hub);
        let mut user = User::new(rt, alloc, self.shared, visitor, digits)?;
        match log_in(rt, alloc, &mut user, digits) {
            Ok(()) => Ok(user),
            Err(refused) => {
                drop(user);
                Err(refused.into())
            }
        }
    }
}

fn log_in<R: Wait>(
    rt: &R,
    alloc: Global,
    user: &mut User<'_>,
    digits: [u8; 2],
) -> Result<(), AllocError> {
    user.say(rt, alloc, b"HSUP ADBASE ADTIGR")?;
    user.say(rt, alloc, &login(alloc, digits)?)
}

/// Gives the two digits of a number below 1,024, with which its session identifier ends.
fn digits(number: u64) -> [u8; 2] {
    let number = number as usize;
    [ALPHABET[number / 32 % 32], ALPHABET[number % 32]]
}

/// Gives the login line of the join with these digits.
fn login(alloc: Global, digits: [u8; 2]) -> Result<Vec<u8>, AllocError> {
    let mut line = Vec::from_slice(alloc, b"BINF AA")?;
    line.extend_from_slice(&digits)?;
    for name in [b" ID", b" PD"] {
        line.extend_from_slice(name)?;
        line.extend_from_slice(&digits)?;
        line.extend_from_slice(&[b'A'; 37])?;
    }
    line.extend_from_slice(b" NIuser")?;
    line.extend_from_slice(&digits)?;
    line.extend_from_slice(
        b" SS123456789 SF1000 SL3 HN1 HR0 HO0 VEclient I40.0.0.0 U41412 SUTCP4,UDP4",
    )?;
    Ok(line)
}
