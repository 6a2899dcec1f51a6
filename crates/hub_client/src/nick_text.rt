ghost use Rattle.std.specs.Prelude.{◌≡◌, true, false, chars, not, IfErr, IfOk};
ghost use Rattle.std.specs.List.{list_all};
ghost use Rattle.adc_ids.specs.Nicks.{is_nick};
ghost use Rattle.operator_acts.specs.Acts.{is_blank};

use adc_ids::{Nick, NickFault};
use std::alloc::Global;

/// A nick as it is written.
#[derive(Clone, Copy, Debug)]
pub struct NickText<'a> {
    text: &'a str,
    ghost nick: { is_nick (chars text.now) ≡ true },
    ghost word: { list_all (λ b. not (is_blank b)) text.now ≡ true },
}

impl<'a> NickText<'a> {
    ghost use Rattle.hub_client.specs.Requests.{nick_bytes};

    /// The nick that a text is. Refused: `Invalid` where it is none (1 to 64 code points above 32), `Memory` where memory
    /// runs out.
    #[tactic(auto, using(crate::proofs::OneWord::nick_is_one_word))]
    pub fn parse(alloc: Global, text: &'a str) -> Result<NickText<'a>, NickFault>
        ensures same { IfOk result (λ nick. nick_bytes nick ≡ text.now) }
        ensures nick { IfOk result (λ _. is_nick (chars text.now) ≡ true) }
        ensures invalid { IfErr result (λ fault. fault ≡ NickFault.Invalid → is_nick (chars text.now) ≡ false) }
        ensures memory { IfErr result (λ fault. fault ≡ NickFault.Memory → is_nick (chars text.now) ≡ true) }
    {
        Nick::parse(alloc, text)?;
        Ok(NickText { text })
    }

    /// The text.
    pub fn as_str(&self) -> &'a str
        ensures { result.now ≡ nick_bytes self.now }
    {
        self.text
    }
}
