ghost use Rattle.std.specs.Prelude.{◌≡◌, ◌∷◌};
ghost use Rattle.std.specs.Option.{option_copied};
ghost use Rattle.operator_acts.specs.Acts.{act_at, act_of, ban_of, kick_of, unban_of, words, words_after};
ghost use Rattle.operator_acts.specs.Gives.{GivesAct};

use crate::fault::ActFault;
use crate::free_text::FreeText;
use crate::seconds::seconds_at;
use adc_ids::{Cid, Nick};
use std::alloc::Global;

/// An act that an operator asks of the hub, by a text that begins with `!`.
#[derive(Drop)]
pub enum Act<'a> {
    /// An order to send a user away, for a reason that may be empty.
    Kick {
        /// The nick of the user.
        nick: Nick,
        /// The reason.
        reason: FreeText<'a>,
    },
    /// An order to send a user away and to refuse the logins of its client identifier, for so many seconds, or for good
    /// where there are 0, for a reason that may be empty.
    Ban {
        /// The nick of the user.
        nick: Nick,
        /// The number of seconds.
        seconds: u32,
        /// The reason.
        reason: FreeText<'a>,
    },
    /// An order to let logins of a client identifier in again.
    Unban(Cid),
    /// An order to set the hub's topic, which may be empty.
    Topic(FreeText<'a>),
}

impl<'a> Act<'a> {
    /// Reads the act that a text asks for, which is not escaped. Its forms, with one blank between the words:
    /// `!kick NICK [reason]`, `!ban NICK SECONDS [reason]`, `!unban CID`, `!topic [text]`. What follows the blank behind
    /// the last word before it is the reason or the topic as it stands.
    ///
    /// NICK is 1 to 64 code points above 32. SECONDS is one to ten digits, up to 4,294,967,295, of
    /// which leading ones may be 0. CID is the 39 base32 digits of 24 bytes.
    ///
    /// Refused, in this order: with `Bad` where the text has none of these forms; with `Memory` where
    /// memory runs out.
    #[tactic(auto, unfolding(crate::specs::Acts::act_at))]
    pub fn parse(alloc: Global, text: &'a str) -> Result<Act<'a>, ActFault>
        ensures { GivesAct result (act_at text.now) }
    {
        let (command, arguments) = split_word(text);
        Act::of(alloc, command, arguments)
    }

    #[tactic(auto, unfolding(crate::specs::Acts::act_of))]
    fn of(alloc: Global, command: &str, arguments: Option<&'a str>) -> Result<Act<'a>, ActFault>
        ensures { GivesAct result (act_of command.now (words_after (option_copied arguments.entry))) }
    {
        match command {
            "!kick" => kick(alloc, arguments),
            "!ban" => ban(alloc, arguments),
            "!unban" => unban(arguments),
            "!topic" => Ok(Act::Topic(FreeText::of(arguments))),
            _ => Err(ActFault::Bad),
        }
    }
}

/// Splits a text into what is before the first blank, and what follows that blank.
fn split_word(text: &str) -> (&str, Option<&str>)
    ensures { words text.now ≡ result.0.now ∷ words_after (option_copied result.1) }
{
    match text.split_once(' ') {
        Some((word, rest)) => (word, Some(rest)),
        None => (text, None),
    }
}

fn kick<'a>(alloc: Global, arguments: Option<&'a str>) -> Result<Act<'a>, ActFault>
    ensures { GivesAct result (kick_of (words_after (option_copied arguments.entry))) }
{
    let (nick, reason) = split_word(arguments.ok_or(ActFault::Bad)?);
    Ok(Act::Kick {
        nick: Nick::parse(alloc, nick)?,
        reason: FreeText::of(reason),
    })
}

fn ban<'a>(alloc: Global, arguments: Option<&'a str>) -> Result<Act<'a>, ActFault>
    ensures { GivesAct result (ban_of (words_after (option_copied arguments.entry))) }
{
    let (nick, rest) = split_word(arguments.ok_or(ActFault::Bad)?);
    let (seconds, reason) = split_word(rest.ok_or(ActFault::Bad)?);
    let seconds = seconds_at(seconds).ok_or(ActFault::Bad)?;
    Ok(Act::Ban {
        nick: Nick::parse(alloc, nick)?,
        seconds,
        reason: FreeText::of(reason),
    })
}

fn unban<'a>(arguments: Option<&str>) -> Result<Act<'a>, ActFault>
    ensures { GivesAct result (unban_of (words_after (option_copied arguments.entry))) }
{
    let (cid, more) = split_word(arguments.ok_or(ActFault::Bad)?);
    if more.is_some() {
        return Err(ActFault::Bad);
    }
    let cid = Cid::parse(cid.as_bytes()).ok_or(ActFault::Bad)?;
    Ok(Act::Unban(cid))
}
