ghost use Rattle.std.specs.Prelude.{◌≡◌, ◌++◌, [], List, Some, slice_get, length, IfOk, IfSome};
ghost use Rattle.std.specs.List.{flat_map};
ghost use Rattle.hub_decisions.specs.Present.{AreFirst, kept_line, line_by};
ghost use Rattle.hub_decisions.specs.declared.lines.PresentLine.{PresentLine as Kept};
ghost use Rattle.hub_rules.specs.Configured.{Configured};
ghost use Rattle.inf_fields.specs.Field.{Field};
ghost use Rattle.std.specs.Prelude.{ℕ, Option};
ghost use Rattle.user_table.specs.Listed.{Listed};
ghost use Rattle.user_table.specs.Tables.{with_update, without_sid};

use crate::effect::one;
use adc_base32::Sid;
use bytes::Bytes;
use hub_setup::{Setup, user_line};
use outboxes::Batch;
use std::alloc::{AllocError, Global};
use std::marker::Model;
use std::mem::replace;
use user_table::{IndexedUsers, User, Users};

/// The line of a user who is present.
#[derive(Drop)]
pub struct PresentLine {
    pub(crate) sid: Sid,
    /// The line, of which others get handles.
    pub(crate) line: Batch,
}

/// The lines of the users who are present, in order of entry, so that a newcomer is told of them by handles, and no line is
/// written anew. Where memory was wanting for one, it and those behind it are left out until somebody enters again.
pub struct PresentLines {
    lines: Vec<PresentLine>,
}

impl Drop for PresentLines {
    fn drop(self) {
        let PresentLines { lines } = self;
        drop(lines);
    }
}

impl Model for PresentLines {
    ghost use Rattle.std.specs.Prelude.{List};
    ghost use Rattle.hub_decisions.specs.declared.lines.PresentLine.{PresentLine as Kept};

    ghost Value = { List Kept };

    ghost view = { λ present. present.lines.items };
}

impl PresentLines {
    /// Makes the lines of no user. Takes no memory.
    pub fn new(alloc: Global) -> PresentLines
        ensures { result ≡ [] }
    {
        PresentLines {
            lines: Vec::new(alloc),
        }
    }

    /// Writes the lines of those users whose lines are left out, as of one who has just entered.
    pub fn add(&mut self, alloc: Global, setup: &Setup, users: &IndexedUsers)
        ensures { (before more : List Listed) → users.now ≡ before ++ more → AreFirst setup.now before self.old → AreFirst setup.now users.now self.new }
    {
        add_rest(alloc, setup, users, &mut self.lines).ok();
    }

    /// Takes out the line of a user who left. Takes no memory.
    pub fn remove(&mut self, sid: Sid)
        ensures { (setup : Configured) (users : List Listed) → AreFirst setup users self.old → AreFirst setup (without_sid sid users) self.new }
    {
        self.lines.retain(|line| line.sid != sid);
    }

    /// Writes the line of a user anew whose fields have changed.
    pub fn renew(&mut self, alloc: Global, setup: &Setup, users: &IndexedUsers, sid: Sid)
        ensures { (update : List Field) (key : Option (List ℕ)) (before : List Listed) → users.now ≡ with_update sid update key before → AreFirst setup.now before self.old → AreFirst setup.now users.now self.new }
    {
        renew_at(alloc, setup, users, sid, &mut self.lines);
    }

    /// Counts the users whose lines are there.
    pub(crate) fn len(&self) -> usize
        ensures { result ≡ length self.now }
    {
        self.lines.len()
    }

    /// Makes a batch of handles of all lines.
    pub(crate) fn share(&self, alloc: Global) -> Result<Batch, AllocError>
        ensures { IfOk result (λ batch. batch ≡ flat_map (λ (kept : Kept). kept.line) self.now) }
    {
        share_all(alloc, &self.lines)
    }
}

fn share_all(alloc: Global, lines: &[PresentLine]) -> Result<Batch, AllocError>
    ensures { IfOk result (λ batch. batch ≡ flat_map (λ (kept : Kept). kept.line) lines.now) }
{
    let mut batch = Batch::new(alloc);
    for kept in lines {
        if batch.push_all(&kept.line).is_err() {
            return Err(AllocError);
        }
    }
    Ok(batch)
}

/// Writes the lines of the users behind those whose lines are there, until memory is wanting for one.
fn add_rest(
    alloc: Global,
    setup: &Setup,
    users: &IndexedUsers,
    lines: &mut Vec<PresentLine>,
) -> Result<(), AllocError>
    ensures { (before more : List Listed) → users.now ≡ before ++ more → AreFirst setup.now before lines.old.items → AreFirst setup.now users.now lines.new.items }
{
    let count = users.totals().users as usize;
    for place in lines.len()..count {
        let Some(user) = users.at(place) else {
            unreachable!()
        };
        lines.push(kept_line(alloc, setup, user)?)?;
    }
    Ok(())
}

/// Writes the line of the user with a session identifier anew. Where memory is wanting, it and those behind it are left out.
fn renew_at(
    alloc: Global,
    setup: &Setup,
    users: &IndexedUsers,
    sid: Sid,
    lines: &mut Vec<PresentLine>,
)
    ensures { (update : List Field) (key : Option (List ℕ)) (before : List Listed) → users.now ≡ with_update sid update key before → AreFirst setup.now before lines.old.items → AreFirst setup.now users.now lines.new.items }
{
    for place in 0..lines.len() {
        if lines[place].sid == sid {
            let Some(kept) = line_at(alloc, setup, users, place) else {
                lines.truncate(place);
                return;
            };
            // By a call: what is let go of is then one case here, and not one for each form of a batch.
            drop(replace(&mut lines[place], kept));
        }
    }
}

/// Writes the line of the user at a place: `None` where there is none, or memory runs out.
fn line_at(alloc: Global, setup: &Setup, users: &IndexedUsers, place: usize) -> Option<PresentLine>
    ensures { IfSome result (λ kept. (user : Listed) → slice_get users.now place ≡ Some user → kept ≡ kept_line setup.now user) }
{
    let user = users.at(place)?;
    kept_line(alloc, setup, user).ok()
}

fn kept_line(alloc: Global, setup: &Setup, user: &User) -> Result<PresentLine, AllocError>
    ensures { IfOk result (λ kept. kept ≡ kept_line setup.now user.now) }
{
    let line = one(alloc, line_of(alloc, setup, user)?)?;
    Ok(PresentLine {
        sid: user.sid(),
        line,
    })
}

/// Writes the line of a user, with what the hub says of it.
pub(crate) fn line_of(alloc: Global, setup: &Setup, user: &User) -> Result<Bytes, AllocError>
    ensures { IfOk result (λ line. line ≡ line_by setup.now user.now) }
{
    let account = setup.account(user.key());
    user_line(alloc, user.sid(), user.fields(), account)
}
