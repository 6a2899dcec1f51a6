ghost use Rattle.user_table.specs.Changes.{key_of};
ghost use Rattle.std.specs.Prelude.{◌≡◌, IfOk, OnErr, Some};
ghost use Rattle.std.specs.Option.{option_copied, option_map};
ghost use Rattle.std.specs.String.{string_bytes};
ghost use Rattle.plain_users.specs.Commands.{HaveRun, AnswersCommand, is_key, said_key, says_nick};
ghost use Rattle.user_table.specs.Indexes.{sid_of};
ghost use Rattle.plain_users.specs.declared.command.Command.TheVariants as commands;
ghost use Rattle.plain_users.specs.declared.command.CommandAnswer.TheVariants as answers;

use crate::command::{Command, CommandAnswer};
use adc_base32::Sid;
use adc_ids::Nick;
use adc_line::{UnescapeFault, unescape};
use inf_fields::{FieldName, Update};
use std::alloc::{AllocError, Global};
use unicode_normalization::to_nfc;
use user_table::{TableRefused, User, Users, takes_update};

/// The reasons for which commands were not begun.
#[derive(Clone, Copy, Debug, PartialEq, Eq)]
pub enum RunRefused {
    /// Memory ran out before the first command; no command was made.
    Memory = 1,
}

impl From<AllocError> for RunRefused {
    ghost use Rattle.plain_users.specs.declared.run.RunRefused.TheVariants.{Memory};

    ghost from_gives = { λ _ refused. refused ≡ Memory };

    fn from(_: AllocError) -> RunRefused {
        RunRefused::Memory
    }
}

/// Makes each command in turn, and answers each at its place.
///
/// A command whose condition does not hold at its turn is answered with `Skipped` and changes nothing. Such are an entry
/// whose session identifier is in the table, and an update of nobody or of one who has no room for it. So is an update with
/// a nick that is not what its field NI says, as nicks are compared (ADC 1.0, "INF"). A command for which memory runs out
/// is answered with `Refused(Memory)` and changes nothing; the commands behind it are made.
///
/// Refused with `Memory` where there is no room for the answers; then no command was made.
pub fn run_users<U: Users>(
    alloc: Global,
    users: &mut U,
    commands: Vec<Command>,
) -> Result<Vec<CommandAnswer>, RunRefused>
    ensures ran { IfOk result (λ answers. HaveRun (U.listed users.old) commands.items answers.items (U.listed users.new)) }
    ensures unchanged { OnErr result (U.listed users.new ≡ U.listed users.old) }
{
    let mut answers = Vec::with_capacity(alloc, commands.len())?;
    for command in commands {
        let answer = answer(alloc, users, command);
        answers.push(answer).unwrap();
    }
    Ok(answers)
}

/// Makes a command.
fn answer<U: Users>(alloc: Global, users: &mut U, command: Command) -> CommandAnswer
    ensures { AnswersCommand (U.listed users.old) command result (U.listed users.new) }
{
    match command {
        Command::Insert(user) => insert(users, user),
        Command::Remove(sid) => remove(users, sid),
        Command::MergeInfo(sid, update, nick) => merge_info(alloc, users, sid, &update, nick),
        Command::BySid(sid) => CommandAnswer::Found(sid_of(users.by_sid(sid))),
        Command::ByCid(cid) => CommandAnswer::Found(sid_of(users.by_cid(cid))),
        Command::ByNick(key) => CommandAnswer::Found(sid_of(users.by_nick(&key))),
        Command::At(place) => CommandAnswer::Found(sid_of(users.at(place))),
        Command::Count => CommandAnswer::Counted(users.totals()),
    }
}

fn sid_of(user: Option<&User>) -> Option<Sid>
    ensures { result ≡ sid_of (option_copied user.entry) }
{
    match user {
        Some(user) => Some(user.sid()),
        None => None,
    }
}

fn insert<U: Users>(users: &mut U, user: User) -> CommandAnswer
    ensures { AnswersCommand (U.listed users.old) (commands.Insert user) result (U.listed users.new) }
{
    if users.by_sid(user.sid()).is_some() {
        drop(user);
        return CommandAnswer::Skipped;
    }
    match users.insert(user) {
        Ok(()) => CommandAnswer::Done,
        Err(back) => refused(back),
    }
}

/// Lets go of a user who was not put in.
fn refused(back: (TableRefused, User)) -> CommandAnswer
    ensures { result ≡ answers.Refused back.0 }
{
    let (refused, user) = back;
    drop(user);
    CommandAnswer::Refused(refused)
}

fn remove<U: Users>(users: &mut U, sid: Sid) -> CommandAnswer
    ensures { AnswersCommand (U.listed users.old) (commands.Remove sid) result (U.listed users.new) }
{
    let removed = users.remove(sid);
    let found = sid_of(removed.as_ref());
    drop(removed);
    CommandAnswer::Found(found)
}

fn merge_info<U: Users>(
    alloc: Global,
    users: &mut U,
    sid: Sid,
    update: &Update,
    nick: Option<Nick>,
) -> CommandAnswer
    ensures { AnswersCommand (U.listed users.old) (commands.MergeInfo sid update.now nick) result (U.listed users.new) }
{
    if !takes_update(users, sid, update) {
        return CommandAnswer::Skipped;
    }
    match says_nick(alloc, update, &nick) {
        Ok(true) => {}
        Ok(false) => return CommandAnswer::Skipped,
        Err(AllocError) => return CommandAnswer::Refused(TableRefused::Memory),
    }
    match users.merge_info(sid, update, nick) {
        Ok(()) => CommandAnswer::Done,
        Err(refused) => CommandAnswer::Refused(refused),
    }
}

/// Tests whether a nick that is given is the one that an update says.
fn says_nick(alloc: Global, update: &Update, nick: &Option<Nick>) -> Result<bool, AllocError>
    ensures { IfOk result (λ says. says ≡ says_nick nick.now update.now) }
{
    let Some(nick) = nick else {
        return Ok(true);
    };
    match said_key(alloc, update)? {
        Some(said) => is_key_of(alloc, nick, said),
        None => Ok(false),
    }
}

/// Tests whether this is the key of a nick.
fn is_key_of(alloc: Global, nick: &Nick, said: String) -> Result<bool, AllocError>
    ensures { IfOk result (λ same. same ≡ is_key (key_of nick.now) (Some (string_bytes said))) }
{
    let key = nick.key(alloc);
    let is_key = match &key {
        Ok(key) => *key == said,
        Err(AllocError) => false,
    };
    drop(said);
    match key {
        Ok(key) => {
            drop(key);
            Ok(is_key)
        }
        Err(AllocError) => Err(AllocError),
    }
}

/// Gives the key of the nick that an update says.
fn said_key(alloc: Global, update: &Update) -> Result<Option<String>, AllocError>
    ensures { IfOk result (λ key. option_map string_bytes key ≡ said_key update.now) }
{
    let Some(value) = update.get(FieldName::nick()) else {
        return Ok(None);
    };
    match unescape(alloc, value) {
        Ok(text) => {
            let key = to_nfc(alloc, &text);
            drop(text);
            Ok(Some(key?))
        }
        Err(UnescapeFault::Memory) => Err(AllocError),
        Err(UnescapeFault::Escape) => Ok(None),
    }
}
