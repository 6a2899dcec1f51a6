use crate::cid_text::CidText;
use crate::nick_text::NickText;
use adc_ids::NickFault;
use std::alloc::Global;

/// A request of an operator to a hub.
#[derive(Clone, Copy, Debug)]
pub enum HubRequest<'a> {
    /// Sends a user away, for a reason that may be empty.
    Kick(NickText<'a>, &'a str),
    /// Sends a user away, and refuses its logins for so many seconds, or for good where there are 0.
    Ban(NickText<'a>, u32, &'a str),
    /// Lets logins of a client identifier in again.
    Unban(CidText<'a>),
    /// Sets the topic, which may be empty.
    Topic(&'a str),
}

impl<'a> HubRequest<'a> {
    ghost use Rattle.std.specs.Prelude.{◌≡◌, Some, None, true, false, IfErr, IfNone, IfOk, IfSome, chars, option_map};
    ghost use Rattle.adc_base32.specs.Spelled.{spelled_bytes};
    ghost use Rattle.adc_ids.specs.Nicks.{is_nick};
    ghost use Rattle.operator_acts.specs.declared.act.Act.TheVariants as acts;
    ghost use Rattle.hub_client.specs.Requests.{act_asked};

    /// Asks to kick the user of this nick. Refused: `Invalid` where the text is no nick; `Memory`.
    pub fn kick(alloc: Global, nick: &'a str, reason: &'a str) -> Result<HubRequest<'a>, NickFault>
        ensures asks { IfOk result (λ request. act_asked request ≡ acts.Kick (chars nick.entry.now) reason.entry.now) }
        ensures nick { IfOk result (λ _. is_nick (chars nick.entry.now) ≡ true) }
        ensures invalid { IfErr result (λ fault. fault ≡ NickFault.Invalid → is_nick (chars nick.entry.now) ≡ false) }
        ensures memory { IfErr result (λ fault. fault ≡ NickFault.Memory → is_nick (chars nick.entry.now) ≡ true) }
    {
        Ok(HubRequest::Kick(NickText::parse(alloc, nick)?, reason))
    }

    /// Asks to ban the user of this nick for so many seconds, or for good where there are 0. Refused: `Invalid` where the text is
    /// no nick; `Memory`.
    pub fn ban(
        alloc: Global,
        nick: &'a str,
        seconds: u32,
        reason: &'a str,
    ) -> Result<HubRequest<'a>, NickFault>
        ensures asks { IfOk result (λ request. act_asked request ≡ acts.Ban (chars nick.entry.now) seconds reason.entry.now) }
        ensures nick { IfOk result (λ _. is_nick (chars nick.entry.now) ≡ true) }
        ensures invalid { IfErr result (λ fault. fault ≡ NickFault.Invalid → is_nick (chars nick.entry.now) ≡ false) }
        ensures memory { IfErr result (λ fault. fault ≡ NickFault.Memory → is_nick (chars nick.entry.now) ≡ true) }
    {
        Ok(HubRequest::Ban(NickText::parse(alloc, nick)?, seconds, reason))
    }

    /// Asks to take back the ban of a client identifier; `None` where the text is none.
    pub fn unban(cid: &'a str) -> Option<HubRequest<'a>>
        ensures asks { IfSome result (λ request. option_map acts.Unban (spelled_bytes 24 cid.entry.now) ≡ Some (act_asked request)) }
        ensures none { IfNone result (spelled_bytes 24 cid.entry.now ≡ None) }
    {
        match CidText::parse(cid) {
            Some(cid) => Some(HubRequest::Unban(cid)),
            None => None,
        }
    }

    /// Asks to set the topic.
    pub fn topic(text: &'a str) -> HubRequest<'a>
        ensures { act_asked result ≡ acts.Topic text.entry.now }
    {
        HubRequest::Topic(text)
    }
}
