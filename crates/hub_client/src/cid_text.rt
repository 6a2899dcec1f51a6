ghost use Rattle.std.specs.Prelude.{◌≡◌, Some, None, true, not, IfNone, IfSome};
ghost use Rattle.std.specs.List.{list_all};
ghost use Rattle.adc_base32.specs.Spelled.{spelled_bytes};
ghost use Rattle.operator_acts.specs.Acts.{is_blank};

use adc_ids::Cid;

/// A client identifier as it is written: 39 base32 digits.
#[derive(Clone, Copy, Debug)]
pub struct CidText<'a> {
    text: &'a str,
    cid: Cid,
    ghost spelt: { spelled_bytes 24 text.now ≡ Some cid },
    ghost word: { list_all (λ b. not (is_blank b)) text.now ≡ true },
}

impl<'a> CidText<'a> {
    ghost use Rattle.hub_client.specs.Requests.{cid_bytes, cid_value};

    /// The client identifier that a text spells; `None` where it spells none.
    #[tactic(auto, using(crate::proofs::OneWord::cid_is_one_word))]
    pub fn parse(text: &'a str) -> Option<CidText<'a>>
        ensures text { IfSome result (λ cid. cid_bytes cid ≡ text.now) }
        ensures spelt { IfSome result (λ cid. spelled_bytes 24 text.now ≡ Some (cid_value cid)) }
        ensures none { IfNone result (spelled_bytes 24 text.now ≡ None) }
    {
        let cid = Cid::parse(text.as_bytes())?;
        Some(CidText { text, cid })
    }

    /// The text.
    pub fn as_str(&self) -> &'a str
        ensures { result.now ≡ cid_bytes self.now }
    {
        self.text
    }
}
