ghost use Rattle.std.specs.Prelude.{◌≡◌, ◌≢◌, ◌⊎◌, ◌∷◌, ◌<◌, ℕ, [], List, None, Some, codes, if◌then◌else◌};
ghost use Rattle.std.specs.Prelude.{IfErr, IfOk, IsFalse, IsTrue, OnOk};
ghost use Rattle.std.specs.Io.KnownBytes.{Keeps, prepend_known};
ghost use Rattle.std.specs.List.{cons_option};
ghost use Rattle.adc_line.specs.Lines.{Reading};
ghost use Rattle.hub_client.specs.declared.status.Status.{Status};
ghost use Rattle.hub_client.specs.Conversations.{Comes, Concludes, Fails, HearsAnswer, HearsEntry, HasStatus, IsAway, IsNotAway};
ghost use Rattle.hub_client.specs.Conversations.{IsEcho, IsNoWelcome, IsPrelude, IsWelcome};
ghost use Rattle.hub_client.specs.Entries.{Enters, IsAnswer, IsBadStatus, IsLoginStep, IsHubInfo, IsNoChallenge, IsLoginRefusal, IsSuccess};
ghost use Rattle.hub_client.specs.Entries.{IsUserLine, TellsOf, is_quit_line, is_user_line};
ghost use Rattle.hub_client.specs.Sayings.{support_text};
ghost use Rattle.hub_client.specs.Talks.{FailsAt, HasFailed, HearsLines, HearsNone, ReadsNone, gone_of, said_by, turns_of, unheard, users_of};

use crate::departures::{sent_away_by, sid_in};
use crate::fault::{ClientFault, read_on, unanswered};
use crate::lines::{message_in, say};
use crate::login::support_line;
use crate::status::Status;
use crate::turns::Turns;
use crate::user::Who;
use adc_base32::{Sid, decode24};
use adc_line::{Framer, Kind, Line, Next};
use counted_io::Counting;
use std::alloc::Global;
use std::io::{Read, Write};

/// A client's connection to a hub.
#[derive(Drop)]
pub struct Client<S> {
    alloc: Global,
    stream: Counting<S>,
    turns: Turns,
    framer: Framer,
    users: Vec<Line>,
    gone: Vec<Line>,
}

/// The first words of a hub.
#[derive(Drop)]
pub struct Welcome {
    /// The session identifier that it gave the client.
    pub sid: Sid,
    /// The message in which it tells of itself.
    pub hub: Line,
}

/// The outcome of a login.
#[derive(Drop)]
pub enum LoginStep {
    /// The client is present.
    Inside,
    /// The hub asks for the password, with this challenge.
    Challenged([u8; 24]),
}

impl<S: Read + Write> Client<S> {
    /// A client over a stream on which nothing was said yet. Its waits are as long as the stream allows.
    pub fn new(alloc: Global, stream: S) -> Client<S>
        ensures users { users_of result ≡ [] }
        ensures gone { gone_of result ≡ [] }
        ensures unheard { unheard S.remaining result ≡ prepend_known [] (S.remaining stream) }
        ensures said { said_by S.contents result ≡ S.contents stream }
        ensures turns { turns_of result ≡ 18_446_744_073_709_551_615 }
    {
        Client {
            alloc,
            stream: Counting::new(stream),
            turns: Turns::all(),
            framer: Framer::new(alloc),
            users: Vec::new(alloc),
            gone: Vec::new(alloc),
        }
    }

    /// Begins the conversation; as a pinger, to whom a hub tells more of itself. Refused as [`ClientFault`] says.
    pub fn hello(&mut self, pinger: bool) -> Result<Welcome, ClientFault>
        ensures welcome { IfOk result (IsWelcome S.remaining S.contents self.old self.new (support_text pinger)) }
        ensures fails { IfErr result (Fails S.remaining S.contents IsPrelude IsNoWelcome self.old self.new (support_text pinger)) }
        ensures users { users_of self.new ≡ users_of self.old }
        ensures gone { gone_of self.new ≡ gone_of self.old }
    {
        say(
            self.alloc,
            &mut self.stream,
            &support_line(self.alloc, pinger)?,
        )?;
        let mut sid = None;
        'lines: while self.turns.are_left() {
            let line = self.hear_well()?;
            if is_info(&line, *b"INF") {
                let Some(sid) = sid else {
                    return Err(ClientFault::NotAdc);
                };
                return Ok(Welcome { sid, hub: line });
            }
            if is_info(&line, *b"SID") {
                sid = sid_in(&line);
            }
        }
        Err(ClientFault::Broken)
    }

    /// Sends a login, or the answer to a challenge, and gives how far the client of this session identifier then came.
    pub fn enter(&mut self, sid: Sid, login: &Line) -> Result<LoginStep, ClientFault>
        ensures comes { IfOk result (Comes S.remaining S.contents self.old self.new sid login.now.text) }
        ensures fails { IfErr result
            (Fails S.remaining S.contents (λ line. IsLoginStep line sid None) (λ _ last. IsLoginRefusal last) self.old self.new login.now.text) }
        ensures gone { gone_of self.new ≡ gone_of self.old }
    {
        say(self.alloc, &mut self.stream, login)?;
        'lines: while self.turns.are_left() {
            if let Some(entry) = self.next_entry(sid)? {
                return Ok(entry);
            }
        }
        Err(ClientFault::Broken)
    }

    /// Hears a message, and gives how far the client of this session identifier came, if it says so.
    fn next_entry(&mut self, sid: Sid) -> Result<Option<LoginStep>, ClientFault>
        ensures heard { IfOk result (HearsEntry S.remaining self.old self.new sid) }
        ensures fails { IfErr result (FailsAt S.remaining IsLoginRefusal self.old self.new) }
        ensures gone { gone_of self.new ≡ gone_of self.old }
        ensures fewer { OnOk result (turns_of self.new < turns_of self.old) }
    {
        let line = self.hear()?;
        if let Some(entry) = entry_in(self.alloc, &line, sid)? {
            return Ok(Some(entry));
        }
        if is_user(&line) {
            self.users.push(line)?;
        }
        Ok(None)
    }

    /// Gives what the hub said of other users since the client entered, by messages of the type INF: first of those who were present
    /// then, one of each.
    pub fn users(&self) -> &[Line]
        ensures { result.now ≡ users_of self.now }
    {
        &self.users
    }

    /// Asks something of the hub, and gives what it answers. Refused: `Refused` where it does not do it, `Unanswered` where no answer
    /// comes in time.
    pub fn ask(&mut self, line: &Line) -> Result<Status, ClientFault>
        ensures answered { IfOk result (HasStatus S.remaining S.contents self.old self.new line.now.text) }
        ensures unanswered { IfErr result (λ fault. fault ≡ ClientFault.Unanswered → HasFailed self.new) }
        ensures fails { IfErr result (λ fault. fault ≢ ClientFault.Unanswered
            → Fails S.remaining S.contents (λ heard. IsAnswer heard None) (λ _ last. IsBadStatus last) self.old self.new line.now.text fault) }
    {
        say(self.alloc, &mut self.stream, line)?;
        'lines: while self.turns.are_left() {
            if let Some(status) = self.next_answer()? {
                return Ok(status);
            }
        }
        Err(ClientFault::Broken)
    }

    /// Hears a message, and gives the status that it is, if it is one.
    fn next_answer(&mut self) -> Result<Option<Status>, ClientFault>
        ensures heard { IfOk result (HearsAnswer S.remaining self.old self.new) }
        ensures unanswered { IfErr result (λ fault. fault ≡ ClientFault.Unanswered → HasFailed self.new) }
        ensures fails { IfErr result (λ fault. fault ≢ ClientFault.Unanswered → FailsAt S.remaining IsBadStatus self.old self.new fault) }
        ensures fewer { OnOk result (turns_of self.new < turns_of self.old) }
    {
        let line = match self.hear() {
            Ok(line) => line,
            Err(fault) => return Err(unanswered(fault)),
        };
        if let Some(status) = answer_in(self.alloc, &line)? {
            return Ok(Some(status));
        }
        if is_quit(&line) {
            self.gone.push(line)?;
        } else if is_user(&line) {
            self.users.push(line)?;
        }
        Ok(None)
    }

    /// Gives the user whom the client of this session identifier sent away by what it asked; `None` where the hub told of none.
    pub fn sent_away(&self, operator: Sid) -> Result<Option<Who>, ClientFault>
        ensures away { IfOk result (λ who. IsAway (gone_of self.now) (users_of self.now) operator who) }
        ensures refused { IfErr result (λ fault. (fault ≡ ClientFault.Memory) ⊎ (fault ≡ ClientFault.NotAdc)) }
        ensures untold { IfErr result (λ fault. fault ≡ ClientFault.NotAdc → IsNotAway (gone_of self.now) (users_of self.now) operator) }
    {
        for line in &self.gone {
            if let Some(sid) = sent_away_by(line, operator) {
                return Ok(Some(Who::in_lines(self.alloc, &self.users, sid)?));
            }
        }
        Ok(None)
    }

    /// Says something to all, and waits until it comes back.
    pub fn chat(&mut self, line: &Line) -> Result<(), ClientFault>
        ensures said { OnOk result ((heard : List Reading) × Concludes S.remaining S.contents (IsEcho line.now.text) self.old self.new line.now.text heard tt) }
        ensures fails { IfErr result (Fails S.remaining S.contents
            (λ heard. IsEcho line.now.text heard None) (λ _ last. IsBadStatus last) self.old self.new line.now.text) }
        ensures users { users_of self.new ≡ users_of self.old }
        ensures gone { gone_of self.new ≡ gone_of self.old }
    {
        say(self.alloc, &mut self.stream, line)?;
        'lines: while self.turns.are_left() {
            if self.hears_echo(line)? {
                return Ok(());
            }
        }
        Err(ClientFault::Broken)
    }

    /// Hears a message, and tests whether it is this one.
    fn hears_echo(&mut self, line: &Line) -> Result<bool, ClientFault>
        ensures heard { IfOk result (λ is_echo. (heard : Reading) × HearsLines (unheard S.remaining self.old) (unheard S.remaining self.new) (heard ∷ [])
            × IsEcho line.now.text heard (if is_echo then Some tt else None)) }
        ensures fails { IfErr result (FailsAt S.remaining IsBadStatus self.old self.new) }
        ensures users { users_of self.new ≡ users_of self.old }
        ensures gone { gone_of self.new ≡ gone_of self.old }
        ensures fewer { OnOk result (turns_of self.new < turns_of self.old) }
    {
        let heard = self.hear()?;
        if heard.text() == line.text() {
            return Ok(true);
        }
        if is_info(&heard, *b"STA") {
            success_in(self.alloc, &heard)?;
        }
        Ok(false)
    }

    /// Hears a message that is no status of a failure. Refused: `Refused` with such a status, else as [`Client::hear`].
    fn hear_well(&mut self) -> Result<Line, ClientFault>
        ensures heard { IfOk result (λ line. HearsLines (unheard S.remaining self.old) (unheard S.remaining self.new) (line ∷ [])) }
        ensures well { IfOk result (λ line. IsHubInfo line (codes "STA") → (status : Status) × IsSuccess line status) }
        ensures fails { IfErr result (FailsAt S.remaining IsBadStatus self.old self.new) }
        ensures users { users_of self.new ≡ users_of self.old }
        ensures gone { gone_of self.new ≡ gone_of self.old }
        ensures fewer { OnOk result (turns_of self.new < turns_of self.old) }
    {
        let line = self.hear()?;
        if is_info(&line, *b"STA") {
            success_in(self.alloc, &line)?;
        }
        Ok(line)
    }

    /// The next message; empty lines are none.
    fn hear(&mut self) -> Result<Line, ClientFault>
        ensures heard { IfOk result (λ line. HearsLines (unheard S.remaining self.old) (unheard S.remaining self.new) (line ∷ [])) }
        ensures none { IfErr result (HearsNone S.remaining self.old self.new) }
        ensures users { users_of self.new ≡ users_of self.old }
        ensures gone { gone_of self.new ≡ gone_of self.old }
        ensures fewer { OnOk result (turns_of self.new < turns_of self.old) }
    {
        'turns: while self.turns.are_left() {
            self.turns.take();
            if let Some(line) = self.hear_some()? {
                return Ok(line);
            }
        }
        Err(ClientFault::Broken)
    }

    /// Reads on, or takes the next line out; gives the message that it is, unless it is empty.
    fn hear_some(&mut self) -> Result<Option<Line>, ClientFault>
        ensures heard { IfOk result (λ line. HearsLines (unheard S.remaining self.old) (unheard S.remaining self.new) (cons_option line [])) }
        ensures none { IfErr result (HearsNone S.remaining self.old self.new) }
        ensures users { users_of self.new ≡ users_of self.old }
        ensures gone { gone_of self.new ≡ gone_of self.old }
        ensures turns { turns_of self.new ≡ turns_of self.old }
    {
        let mut bytes = Vec::new(self.alloc);
        match self.framer.next(&mut bytes)? {
            Next::TooLong => Err(ClientFault::NotAdc),
            Next::More => {
                self.read_some()?;
                Ok(None)
            }
            Next::Line if bytes.is_empty() => Ok(None),
            Next::Line => Ok(Some(message_in(self.alloc, &bytes)?)),
        }
    }

    fn read_some(&mut self) -> Result<(), ClientFault>
        ensures some { OnOk result (Keeps (unheard S.remaining self.old) (unheard S.remaining self.new)) }
        ensures none { IfErr result (ReadsNone S.remaining self.old self.new) }
        ensures users { users_of self.new ≡ users_of self.old }
        ensures gone { gone_of self.new ≡ gone_of self.old }
        ensures turns { turns_of self.new ≡ turns_of self.old }
    {
        let mut piece = [0; 4096];
        match self.stream.read(&mut piece) {
            Ok(0) => Err(ClientFault::Closed),
            Ok(count) => Ok(self.framer.feed(&piece[..count])?),
            Err(error) => read_on(error),
        }
    }
}

/// Tests whether a line is of the type I and has this command.
fn is_info(line: &Line, command: [u8; 3]) -> bool
    ensures yes { IsTrue result → IsHubInfo line.now command }
    ensures no { IsFalse result → IsHubInfo line.now command → ⊥ }
{
    line.kind() == Kind::Info && line.command() == command
}

/// Tests whether a line tells of a user.
#[tactic(auto, using(crate::proofs::LineTests::tells_user))]
fn is_user(line: &Line) -> bool
    ensures yes { IsTrue result → IsUserLine line.now }
    ensures no { IsFalse result → IsUserLine line.now → ⊥ }
    ensures test { result ≡ is_user_line line.now }
{
    line.kind() == Kind::Broadcast && line.command() == *b"INF"
}

/// Tests whether a line says that a user is gone.
fn is_quit(line: &Line) -> bool
    ensures { result ≡ is_quit_line line.now }
{
    line.kind() == Kind::Info && line.command() == *b"QUI"
}

/// Tests whether a line tells of the user of this session identifier.
fn is_of(line: &Line, sid: Sid) -> bool
    ensures yes { IsTrue result → TellsOf line.now sid }
    ensures no { IsFalse result → TellsOf line.now sid → ⊥ }
{
    is_user(line) && line.from() == Some(sid)
}

/// Returns how far the client of this session identifier came, if a line says so; `None` if the line says nothing of that.
///
/// Refused: `Refused` with the status of a failure that the line is; `NotAdc`; `Memory`.
fn entry_in(alloc: Global, line: &Line, sid: Sid) -> Result<Option<LoginStep>, ClientFault>
    ensures entry { IfOk result (λ entry. IsLoginStep line.now sid entry) }
    ensures refused { IfErr result (λ fault. IsLoginRefusal line.now fault) }
{
    if is_info(line, *b"GPA") {
        return Ok(Some(challenge_in(line)?));
    }
    if is_info(line, *b"STA") {
        success_in(alloc, line)?;
        return Ok(None);
    }
    Ok(is_of(line, sid).then_some(LoginStep::Inside))
}

/// Returns the status of a success that a line is; `None` if it is no status. Refused as [`success_in`] says.
fn answer_in(alloc: Global, line: &Line) -> Result<Option<Status>, ClientFault>
    ensures answer { IfOk result (λ status. IsAnswer line.now status) }
    ensures refused { IfErr result (IsBadStatus line.now) }
{
    if is_info(line, *b"STA") {
        return Ok(Some(success_in(alloc, line)?));
    }
    Ok(None)
}

/// Returns the status that a line is. Refused: `Refused` with a status of a failure; `NotAdc` if it is none; `Memory`.
fn success_in(alloc: Global, line: &Line) -> Result<Status, ClientFault>
    requires { IsHubInfo line.now (codes "STA") }
    ensures success { IfOk result (λ status. IsSuccess line.now status) }
    ensures refused { IfErr result (λ fault. IsLoginRefusal line.now fault) }
{
    let status = Status::read(alloc, line)?;
    if status.is_success() {
        return Ok(status);
    }
    Err(ClientFault::Refused(status))
}

/// Returns the challenge that the hub sends. Refused: `NotAdc` if it sends none.
fn challenge_in(line: &Line) -> Result<LoginStep, ClientFault>
    requires { IsHubInfo line.now (codes "GPA") }
    ensures challenge { IfOk result (λ entry. (sid : ℕ) → Enters line.now sid entry) }
    ensures refused { IfErr result (λ fault. fault ≡ ClientFault.NotAdc) }
    ensures none { IfErr result (λ _. IsNoChallenge line.now) }
{
    let word = line.params().next().unwrap_or("");
    match decode24(word.as_bytes()) {
        Ok(bytes) => Ok(LoginStep::Challenged(bytes)),
        Err(_) => Err(ClientFault::NotAdc),
    }
}
