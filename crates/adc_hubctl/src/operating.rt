use crate::ending::{ToolEnding, file, unread};
use crate::showing::{print_json, print_table, printable};
use crate::stream::{TimedStream, connect};
use crate::taking_back::taking_back;
use adc_base32::Sid;
use adc_line::{Line, LineFault};
use hub_client::{
    Client, ClientFault, ClientIdentity, HubAddress, HubRequest, HubUser, LoginStep, NickText,
    act_line, chat_line, login_line, password_line,
};
use session_hash::{First24, SessionHash, TableTiger, TablesFault};
use std::alloc::{AllocGlobal, Global};
use std::fs::{self, Files};
use std::net::Net;
use std::random::RandomSource;
use std::time::Clock;
use std::{io, str};

/// A login: the address, the nick, and the way to the password.
#[derive(Clone, Copy)]
pub(crate) struct Login<'a> {
    pub(crate) address: HubAddress<'a>,
    pub(crate) nick: NickText<'a>,
    /// The file of the password; standard input where there is none.
    pub(crate) password_file: Option<&'a str>,
    /// Whether standard input is a terminal.
    pub(crate) is_typed: bool,
    pub(crate) hash: Hash<'a>,
    pub(crate) seconds: u32,
}

/// A hash by which a hub checks who logs in.
#[derive(Clone, Copy)]
pub(crate) enum Hash<'a> {
    /// Tiger, with the file of its tables, where one was named.
    Tiger(Option<&'a str>),
    /// The stand-in of tests.
    First24,
}

/// Where Tiger's tables are looked for: in the folder, as ./adc_hub makes them, then where the package puts them.
const TABLES: &str = "tiger.bin";

const INSTALLED_TABLES: &str = "/usr/share/adc-hub/tiger.bin";

/// A deed for a client that is present.
#[derive(Clone, Copy)]
pub(crate) enum Operation<'a> {
    Ask(HubRequest<'a>),
    /// The request of a ban, of which is said how it is taken back.
    Ban(HubRequest<'a>),
    Say(&'a str),
    ListUsers { is_json: bool },
}

/// Logs in, does one thing, prints what the hub answered, and leaves.
pub(crate) fn operate<R>(rt: &R, login: &Login<'_>, deed: &Operation<'_>) -> Result<(), ToolEnding>
where
    R: Net + Clock + Files + RandomSource + Input + Print + Eprint + AllocGlobal,
{
    let path = match login.hash {
        Hash::First24 => return operate_by(rt, login, deed, &First24),
        Hash::Tiger(path) => path,
    };
    let tiger = tiger(rt, path)?;
    let done = operate_by(rt, login, deed, &tiger);
    drop(tiger);
    done
}

fn tiger<R: Files + AllocGlobal>(rt: &R, path: Option<&str>) -> Result<TableTiger, ToolEnding> {
    let Some(path) = path else {
        return found_tiger(rt);
    };
    match fs::read(rt, path) {
        Ok(bytes) => tiger_of(rt.alloc(), path, &bytes),
        Err(error) => Err(of_tables(unread(rt.alloc(), path, &error))),
    }
}

/// Looks for the tables where they may be.
fn found_tiger<R: Files + AllocGlobal>(rt: &R) -> Result<TableTiger, ToolEnding> {
    for path in [TABLES, INSTALLED_TABLES] {
        match fs::read(rt, path) {
            Ok(bytes) => return tiger_of(rt.alloc(), path, &bytes),
            Err(error) if error.kind() == io::ErrorKind::OutOfMemory => {
                return Err(ToolEnding::Memory);
            }
            Err(_) => {}
        }
    }
    Err(ToolEnding::NoTables)
}

fn tiger_of(alloc: Global, path: &str, bytes: &[u8]) -> Result<TableTiger, ToolEnding> {
    match TableTiger::from_bytes(alloc, bytes) {
        Ok(tiger) => Ok(tiger),
        Err(TablesFault::Length) => Err(of_tables(file(alloc, path, "it has no tables of Tiger"))),
        Err(TablesFault::Memory) => Err(ToolEnding::Memory),
    }
}

/// Gives the fault of a file as one of Tiger's tables.
fn of_tables(ending: ToolEnding) -> ToolEnding {
    match ending {
        ToolEnding::File(path, words) => ToolEnding::Tables(path, words),
        other => other,
    }
}

fn operate_by<R, H>(
    rt: &R,
    login: &Login<'_>,
    deed: &Operation<'_>,
    hash: &H,
) -> Result<(), ToolEnding>
where
    R: Net + Clock + Files + RandomSource + Input + Print + Eprint + AllocGlobal,
    H: SessionHash,
{
    let mut client = Client::new(rt.alloc(), connect(rt, &login.address, login.seconds)?);
    let done = operate_client(rt, &mut client, login, deed, hash);
    drop(client);
    done
}

// What owns much lets it go by a call, in one place: a body that does so where each of its calls may fail is dear to prove.

fn operate_client<R, H>(
    rt: &R,
    client: &mut Client<TimedStream<'_, R>>,
    login: &Login<'_>,
    deed: &Operation<'_>,
    hash: &H,
) -> Result<(), ToolEnding>
where
    R: Net + Clock + Files + RandomSource + Input + Print + Eprint + AllocGlobal,
    H: SessionHash,
{
    let sid = greet(client)?;
    if let LoginStep::Challenged(challenge) = enter(rt, client, sid, login, hash)? {
        answer(rt, client, sid, login, hash, &challenge)?;
    }
    act(rt, client, sid, login, deed)
}

fn greet<R: Net + Clock>(client: &mut Client<TimedStream<'_, R>>) -> Result<Sid, ToolEnding> {
    let welcome = client.hello(false)?;
    let sid = welcome.sid;
    drop(welcome);
    Ok(sid)
}

/// Says the login line, with a new private identifier.
fn enter<R, H>(
    rt: &R,
    client: &mut Client<TimedStream<'_, R>>,
    sid: Sid,
    login: &Login<'_>,
    hash: &H,
) -> Result<LoginStep, ToolEnding>
where
    R: Net + Clock + RandomSource + AllocGlobal,
    H: SessionHash,
{
    let mut private = [0; 24];
    rt.fill_bytes(&mut private)?;
    let line = login_line(
        rt.alloc(),
        sid,
        &ClientIdentity::of(hash, private),
        &login.nick,
    )?;
    let entry = client.enter(sid, &line);
    drop(line);
    Ok(entry?)
}

/// Answers the challenge by the password.
fn answer<R, H>(
    rt: &R,
    client: &mut Client<TimedStream<'_, R>>,
    sid: Sid,
    login: &Login<'_>,
    hash: &H,
    challenge: &[u8; 24],
) -> Result<(), ToolEnding>
where
    R: Net + Clock + Files + Input + Eprint + AllocGlobal,
    H: SessionHash,
{
    let line = answer_line(rt, login, hash, challenge)?;
    let entry = client.enter(sid, &line);
    drop(line);
    match entry? {
        LoginStep::Inside => Ok(()),
        LoginStep::Challenged(_) => Err(ToolEnding::Client(ClientFault::NotAdc)),
    }
}

fn answer_line<R, H>(
    rt: &R,
    login: &Login<'_>,
    hash: &H,
    challenge: &[u8; 24],
) -> Result<Line, ToolEnding>
where
    R: Files + Input + Eprint + AllocGlobal,
    H: SessionHash,
{
    let password = password(rt, login)?;
    Ok(password_line(rt.alloc(), hash, &password, challenge)?)
}

/// The first line of the file, or of standard input. Refused: `NoPassword` or `File` where it is empty or missing.
fn password<R>(rt: &R, login: &Login<'_>) -> Result<String, ToolEnding>
where
    R: Files + Input + Eprint + AllocGlobal,
{
    let text = match login.password_file {
        None => typed(rt, login)?,
        Some(path) => password_text(rt, path)?,
    };
    let first = first_line(&text);
    match login.password_file {
        None if first.is_empty() => Err(ToolEnding::NoPassword),
        Some(path) if first.is_empty() => Err(file(rt.alloc(), path, "its first line is empty")),
        _ => Ok(String::from_str(rt.alloc(), first)?),
    }
}

fn first_line(text: &str) -> &str {
    let first = text.split('\n').next().unwrap_or("");
    first.strip_suffix("\r").unwrap_or(first)
}

/// The line that is typed at the terminal, after a question, or that standard input has. It is shown while it is typed.
fn typed<R>(rt: &R, login: &Login<'_>) -> Result<String, ToolEnding>
where
    R: Input + Eprint + AllocGlobal,
{
    if login.is_typed {
        let nick = printable(rt.alloc(), login.nick.as_str())?;
        eprint!(rt; "password for {nick} (it will be shown): ")?;
    }
    let mut line = String::new(rt.alloc());
    rt.read_line(&mut line)?;
    Ok(line)
}

fn password_text<R: Files + AllocGlobal>(rt: &R, path: &str) -> Result<String, ToolEnding> {
    let bytes = match fs::read(rt, path) {
        Ok(bytes) => bytes,
        Err(error) => return Err(unread(rt.alloc(), path, &error)),
    };
    match str::from_utf8(&bytes) {
        Ok(text) => Ok(String::from_str(rt.alloc(), text)?),
        Err(_) => Err(file(rt.alloc(), path, "it is no text in UTF-8")),
    }
}

fn act<R: Net + Clock + Print + AllocGlobal>(
    rt: &R,
    client: &mut Client<TimedStream<'_, R>>,
    sid: Sid,
    login: &Login<'_>,
    deed: &Operation<'_>,
) -> Result<(), ToolEnding> {
    match deed {
        Operation::Ask(request) => ask(rt, client, request),
        Operation::Ban(request) => {
            ask(rt, client, request)?;
            tell_ban(rt, client, sid, login)
        }
        Operation::Say(text) => say(rt.alloc(), client, sid, text),
        Operation::ListUsers { is_json } => list_users(rt, client.users(), *is_json),
    }
}

/// Asks the hub for something, and prints what it answers.
fn ask<R: Net + Clock + Print + AllocGlobal>(
    rt: &R,
    client: &mut Client<TimedStream<'_, R>>,
    request: &HubRequest<'_>,
) -> Result<(), ToolEnding> {
    let text = answer_text(rt.alloc(), client, request)?;
    let shown = printable(rt.alloc(), &text);
    drop(text);
    let shown = shown?;
    Ok(println!(rt; "{shown}")?)
}

/// Prints who was banned, and the line that takes it back.
fn tell_ban<R: Net + Clock + Print + AllocGlobal>(
    rt: &R,
    client: &Client<TimedStream<'_, R>>,
    sid: Sid,
    login: &Login<'_>,
) -> Result<(), ToolEnding> {
    let who = client.sent_away(sid)?;
    let text = taking_back(rt.alloc(), who.as_ref(), login);
    drop(who);
    let text = text?;
    Ok(println!(rt; "{text}")?)
}

fn answer_text<R: Net + Clock>(
    alloc: Global,
    client: &mut Client<TimedStream<'_, R>>,
    request: &HubRequest<'_>,
) -> Result<String, ToolEnding> {
    let line = act_line(alloc, request).map_err(unsayable)?;
    let answer = client.ask(&line);
    drop(line);
    let status = answer?;
    Ok(status.to_string(alloc)?)
}

fn say<R: Net + Clock>(
    alloc: Global,
    client: &mut Client<TimedStream<'_, R>>,
    sid: Sid,
    text: &str,
) -> Result<(), ToolEnding> {
    let line = chat_line(alloc, sid, text)?;
    let said = client.chat(&line);
    drop(line);
    Ok(said?)
}

fn list_users<R: Print + AllocGlobal>(
    rt: &R,
    lines: &[Line],
    is_json: bool,
) -> Result<(), ToolEnding> {
    let users = read_users(rt.alloc(), lines)?;
    let done = if is_json {
        print_json(rt, &users)
    } else {
        print_table(rt, &users)
    };
    drop(users);
    done
}

fn read_users(alloc: Global, lines: &[Line]) -> Result<Vec<HubUser>, ToolEnding> {
    let mut users = Vec::new(alloc);
    for line in lines {
        users.push(HubUser::read(alloc, line)?)?;
    }
    Ok(users)
}

fn unsayable(fault: LineFault) -> ToolEnding {
    match fault {
        LineFault::Memory => ToolEnding::Memory,
        _ => ToolEnding::Client(ClientFault::Unsayable),
    }
}
