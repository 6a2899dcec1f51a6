use super::say_check;
use crate::lines::line;
use crate::rows::*;
use login_state::{Feature, Features, SupFault, check_sup};

/// The features that a client says it supports.
#[derive(Drop)]
pub(crate) struct Supports {
    features: Features,
}

impl Part for Supports {
    fn call(&mut self, rt: &impl Machine, row: Row<'_>, said: &mut Vec<u8>) {
        match row.name {
            "greets" => self.greets(rt, row.text, said),
            "none" => self.features = Features::new(rt.alloc()),
            "says" => self.says(rt, row.text, said),
            "many" => self.says(rt, &many(rt, row.text), said),
            "has" => say_whether(rt, said, self.features.has(feature(rt, row.text))),
            "named" => match find_feature(row.text) {
                Some(feature) => say_bytes(rt, said, &feature.name()),
                None => say_any(rt, said, None),
            },
            "known" => say_bytes(rt, said, &feature_of(rt, row.text).name()),
            _ => unknown(rt, row.name),
        }
    }
}

impl Supports {
    /// Applies lines SUP, with ` and ` between, to no features, and says how they are answered.
    fn greets(&mut self, rt: &impl Machine, lines: &str, said: &mut Vec<u8>) {
        self.features = Features::new(rt.alloc());
        for line in lines.split(" and ") {
            self.says(rt, line, said);
        }
        say_check(rt, said, check_sup(&self.features));
    }

    /// Applies another line SUP. Where it is refused, the features are those before.
    fn says(&mut self, rt: &impl Machine, text: &str, said: &mut Vec<u8>) {
        let line = line(rt, text.as_bytes());
        let answer = twice!(rt; "login_state::Features::apply", SupFault::Memory,
            self.features.has(Feature::base()), self.features.apply(rt.alloc(), line.params()));
        match answer {
            Ok(features) => self.features = features,
            Err(fault) => say_shown(rt, said, &fault),
        }
    }
}

/// Writes a SUP that adds so many features, `X000` and so on, with these words behind it.
fn many(rt: &impl Machine, text: &str) -> String {
    let (count, words) = pair(text, ' ');
    again!(rt; sup(rt.alloc(), small(rt, count), words))
}

fn sup(alloc: Global, count: u32, words: &str) -> Result<String, AllocError> {
    let mut text = String::new(alloc);
    text.push_str("HSUP")?;
    for number in 0..count {
        text.push_str(&format!(in alloc; " ADX{number:03}")?)?;
    }
    if !words.is_empty() {
        text.push_str(" ")?;
        text.push_str(words)?;
    }
    Ok(text)
}

fn find_feature(text: &str) -> Option<Feature> {
    match text.as_bytes() {
        [a, b, c, d] => Feature::of_name([*a, *b, *c, *d]),
        _ => None,
    }
}

fn feature(rt: &impl Abort, text: &str) -> Feature {
    find_feature(text).expect(rt, text)
}

fn feature_of(rt: &impl Abort, text: &str) -> Feature {
    match text {
        "base" => Feature::base(),
        "tigr" => Feature::tigr(),
        "ping" => Feature::ping(),
        "ucmd" => Feature::ucmd(),
        _ => unknown(rt, text),
    }
}

pub(crate) fn play_supports<R: Machine>(rt: &R, rows: &str) {
    let features = Features::new(rt.alloc());
    play(rt, &mut Supports { features }, rows);
}

#[test]
fn features_are_counted(rt: HostRuntime) {
    rows! { play_supports(rt) r"
        == greets who supports base and tiger ==
        greets HSUP ADBASE ADTIGR -> Go | HSUP ADBASE -> ISTA 247 No\scommon\shash
        greets HSUP ADTIGR | HSUP | HSUP ADBASE ADTIGR RMBAS0 -> ISTA 245 Feature\smissing FCBASE
        greets HSUP ADBAS0 ADTIGR ADUCM0 ADZLIF | HSUP RMBASE ADTIGR ADBASE RMTIGR ADTIGR -> Go
        greets HSUP ADBASE ADTIGR and HSUP RMTIGR -> ISTA 247 No\scommon\shash
        greets HSUP ADTIGR and HSUP ADBASE ADPING and HSUP RMPING | HSUP ADBASE ADTIGR and HSUP RMBASE and HSUP ADBASE -> Go
        == refuses words that mention nothing ==
        says HSUP ADBASE TIGR | HSUP AD | HSUP ADBAS | HSUP ADBASEX | HSUP ADbase | HSUP AD1ASE | HSUP XXBASE | HSUP adBASE -> Bad
        says HSUP DABASE | HSUP AMBASE | HSUP ADBA\s -> Bad
        == counts after the whole line ==
        many 65 -> TooMany | 64 -> <>
        has X000 | X063 -> yes
        says HSUP ADBASE -> TooMany | HSUP ADX001 -> <>
        none -> <>
        many 66 RMX000 RMX065 RMX001 -> <>
        has X000 -> no | X063 -> yes
        says HSUP ADX000 -> <>
        has X000 | X063 -> yes
        == names features ==
        known base -> BASE | tigr -> TIGR | ping -> PING | ucmd -> UCMD
        named BASE -> BASE | TIGR -> TIGR | PING -> PING | UCMD -> UCMD | BAS0 -> BASE | UCM0 -> UCMD | bas0 -> none
        has BASE | TIGR | PING | UCMD -> no
        says HSUP ADBAS0 ADTIGR ADUCM0 ADPING -> <>
        has BASE | TIGR | PING | UCMD -> yes
    " }
}
