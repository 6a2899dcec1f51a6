ghost use Rattle.std.specs.Prelude.{◌≡◌, Ok, IfOk, chars, map};
ghost use Rattle.std.specs.Map.Iter.{deref};
ghost use Rattle.std.specs.Result.{result_ok};
ghost use Rattle.std.specs.String.{string_bytes};
ghost use Rattle.adc_base32.specs.Spelled.{spelled_bytes};
ghost use Rattle.adc_ids.specs.Nicks.{is_nick};
ghost use Rattle.inf_fields.specs.FieldNames.{id_name};
ghost use Rattle.inf_fields.specs.Updates as updates;
ghost use Rattle.hub_rules.specs.Identities.{key_in, nick_in, value_or_empty};
ghost use Rattle.hub_rules.specs.Prepared.{update_of};

use adc_ids::{Cid, Nick, NickFault};
use adc_line::{Kind, Line, UnescapeFault, unescape};
use inf_fields::{FieldName, InfFault, Update};
use std::alloc::{AllocError, Global};
use std::marker::Model;
use unicode_normalization::to_nfc;

/// An INF for all whose words make an update, and what of it takes time to work out (ADC 1.0, "INF").
pub struct Inf {
    update: Update,
    /// What the word of the nick means; the empty text where there is none.
    nick: String,
    /// The key by which this nick is compared with others.
    key: String,
    is_nick: bool,
    cid: Option<Cid>,
}

impl Drop for Inf {
    fn drop(self) {
        let Inf {
            update,
            nick,
            key,
            is_nick: _,
            cid: _,
        } = self;
        drop(update);
        drop(nick);
        drop(key);
    }
}

impl Model for Inf {
    ghost use Rattle.std.specs.Prelude.{List};
    ghost use Rattle.inf_fields.specs.Field.{Field};

    ghost Value = { List Field };

    ghost view = { λ inf. inf.update };

    ghost use Rattle.hub_setup.specs.Prepared.{IsInf};

    ghost invariant = { IsInf };
}

impl Inf {
    /// Gives the fields that it updates.
    pub fn update(&self) -> &Update
        ensures { result.now ≡ self.now }
    {
        &self.update
    }

    /// Gives what the word of the nick means; the empty text where there is none, or it means nothing.
    pub fn nick(&self) -> &str
        ensures { result.now ≡ nick_in self.now }
    {
        &self.nick
    }

    /// Answers whether this is a nick: 1 to 64 code points, each above 32.
    pub fn is_nick(&self) -> bool
        ensures { result ≡ is_nick (chars (nick_in self.now)) }
    {
        self.is_nick
    }

    /// Gives the key by which this nick is compared with others.
    pub fn key(&self) -> &str
        ensures { result.now ≡ key_in self.now }
    {
        &self.key
    }

    /// Gives the client identifier, where there is one of 24 bytes.
    pub fn cid(&self) -> Option<Cid>
        ensures { result ≡ spelled_bytes 24 (value_or_empty id_name self.now) }
    {
        self.cid
    }
}

/// Reads what a message says, where it is an INF for all. Refused only where memory runs out.
pub(crate) fn inf_of(alloc: Global, line: &Line) -> Result<Option<Inf>, AllocError>
    ensures { IfOk result (λ inf. inf ≡ update_of (Ok line.now)) }
{
    if line.kind() != Kind::Broadcast || line.command() != *b"INF" {
        return Ok(None);
    }
    let words = words_of(alloc, line)?;
    inf_in(alloc, &words)
}

/// Gives the parameters of a message.
fn words_of(alloc: Global, line: &Line) -> Result<Vec<&str>, AllocError>
    ensures { IfOk result (λ words. map deref words.items ≡ line.now.params) }
{
    let mut words = Vec::new(alloc);
    for word in line.params() {
        words.push(word).map_err(|_| AllocError)?;
    }
    Ok(words)
}

fn inf_in(alloc: Global, words: &[&str]) -> Result<Option<Inf>, AllocError>
    ensures { IfOk result (λ inf. inf ≡ result_ok (updates.reading (map deref words.now))) }
{
    match Update::read(alloc, words) {
        Ok(update) => Ok(Some(worked_out(alloc, update)?)),
        Err(InfFault::Memory) => Err(AllocError),
        Err(_) => Ok(None),
    }
}

/// Works out nick, key and client identifier of an update.
fn worked_out(alloc: Global, update: Update) -> Result<Inf, AllocError>
    ensures { IfOk result (λ inf. inf ≡ update) }
{
    let nick = nick_in(alloc, &update)?;
    let key = to_nfc(alloc, &nick)?;
    let is_nick = is_nick(alloc, &nick)?;
    let cid = Cid::parse(update.get(FieldName::id()).unwrap_or("").as_bytes());
    Ok(Inf {
        update,
        nick,
        key,
        is_nick,
        cid,
    })
}

/// Gives what the word of the nick means; the empty text where there is none.
fn nick_in(alloc: Global, update: &Update) -> Result<String, AllocError>
    ensures { IfOk result (λ nick. string_bytes nick ≡ nick_in update.now) }
{
    let word = update.get(FieldName::nick()).unwrap_or("");
    match unescape(alloc, word) {
        Ok(nick) => Ok(nick),
        Err(UnescapeFault::Memory) => Err(AllocError),
        Err(UnescapeFault::Escape) => Ok(String::new(alloc)),
    }
}

fn is_nick(alloc: Global, text: &str) -> Result<bool, AllocError>
    ensures { IfOk result (λ good. good ≡ is_nick (chars text.now)) }
{
    match Nick::parse(alloc, text) {
        Ok(_) => Ok(true),
        Err(NickFault::Invalid) => Ok(false),
        Err(NickFault::Memory) => Err(AllocError),
    }
}
