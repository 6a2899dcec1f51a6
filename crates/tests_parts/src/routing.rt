use crate::base32::sid;
use crate::lines::line;
use crate::rows::*;
use feature_route::{Audience, FeatureSet, Want, audience};

/// The users for whom a line is.
#[derive(Drop)]
pub(crate) struct Routing;

impl Part for Routing {
    fn call(&mut self, rt: &impl Machine, row: Row<'_>, said: &mut Vec<u8>) {
        match row.name {
            "want" => say_whether(rt, said, Want::parse(row.text).is_some()),
            "match" => say_match(rt, row.text, said),
            "present" => hearers(rt, row.bytes, true, "TCP4", said),
            "absent" => hearers(rt, row.bytes, false, "TCP4", said),
            "bare" => hearers(rt, row.bytes, false, "", said),
            "named" => say_audience(rt, row.bytes, said),
            _ => unknown(rt, row.name),
        }
    }
}

fn set(rt: &impl Machine, su: &str) -> FeatureSet {
    got!(rt; "feature_route::FeatureSet::read", AllocError, FeatureSet::read(rt.alloc(), su))
}

/// Says whether a feature word matches who supports these features; by their names and by their set the same.
fn say_match(rt: &impl Machine, text: &str, said: &mut Vec<u8>) {
    let (word, su) = pair(text, ' ');
    let want = Want::parse(word).expect(rt, word);
    let is_matched = want.matches(su);
    let is_set = want.matches_set(&set(rt, su)) == is_matched;
    assert!(rt; is_set, "{text}: the set says something else");
    say_whether(rt, said, is_matched);
}

/// Says who of three users hears a line: ana (AAAB) with TCP4 and SEGA, bob (AAAC) with these features, and cy (AAAD) with none.
fn hearers(rt: &impl Machine, bytes: &[u8], present: bool, su_of_bob: &str, said: &mut Vec<u8>) {
    let line = line(rt, bytes);
    let audience = audience(&line, present);
    for (number, name, su) in [
        (1, "ana", "TCP4,SEGA"),
        (2, "bob", su_of_bob),
        (3, "cy", ""),
    ] {
        let sid = sid(rt, number);
        let hears = audience.holds(sid, su);
        let is_set = audience.holds_set(sid, &set(rt, su)) == hears;
        assert!(rt; is_set, "the set says something else");
        if hears {
            say_next(rt, said, name);
        }
    }
    if said.is_empty() {
        say(rt, said, "nobody");
    }
}

/// Says for whom a line is by name, where its target is present.
fn say_audience(rt: &impl Machine, bytes: &[u8], said: &mut Vec<u8>) {
    match audience(&line(rt, bytes), true) {
        Audience::One(sid) => say_number(rt, said, sid.number() as u128),
        Audience::Two(one, two) => {
            say_number(rt, said, one.number() as u128);
            say_number(rt, said, two.number() as u128);
        }
        _ => say(rt, said, "others"),
    }
}

#[test]
fn lines_find_their_hearers(rt: HostRuntime) {
    rows! { rt, Routing, "
        == takes feature words ==
        want +TCP4 | -TCP4 | +TCP4-NAT0 | +TCP4-SEGA+ADC0 | +A000 -> yes
        want +TCP | +TCP45 | TCP4 | +tcp4 | +4TCP | *TCP4 | +TCP4<x20> | ++TCP4 | + | <> -> no
        == matches users by their features ==
        match +TCP4-SEGA TCP4,SEGA -> no | +TCP4-SEGA TCP4 -> yes | +TCP4-SEGA <> -> no | +TCP4 TCP4,SEGA | +TCP4 SEGA,TCP4 -> yes
        match +TCP4 <> -> no | +TCP4+SEGA TCP4,SEGA -> yes | +TCP4+SEGA TCP4 | +TCP4+SEGA SEGA | -TCP4 TCP4,SEGA -> no
        match -TCP4 SEGA | -TCP4 <> -> yes | +SEGA-SEGA TCP4,SEGA | +SEGA-SEGA TCP4 -> no
        match +TCP4+TCP4 TCP4 | -NAT0+UDP4 SEGA,ADC0,TCP4,UDP4 -> yes | -NAT0+UDP4 SEGA,ADC0,NAT0,UDP4 -> no
        match +TCP4 TCP4,TCP4,TCP4 | +SEGA TCP4,,SEGA -> yes
        match -SEGA TCP4,,SEGA, | +TCP4 tcp4 | +TCP4 TCP4<x20> | +TCP4 TCP | +TCP4 TCP45 | +TCP4 XTCP4,TCP4X | +TCP4 , -> no
        match -TCP4 \u{e9}\u{e9},TCP\u{e9} -> yes
        == sends lines to their audience ==
        absent BMSG AAAB hi -> ana bob cy
        present DMSG AAAB AAAC yo -> bob
        absent DMSG AAAB 7777 hi -> nobody
        present DMSG AAAB AAAB hi -> ana | EMSG AAAB AAAC yo -> ana bob | EMSG AAAB AAAB hi -> ana
        absent EMSG AAAB 7777 hi -> nobody | FSCH AAAB +TCP4-SEGA ANx TO1 -> bob | FSCH AAAB +TCP4 ANx TO2 -> ana bob
        absent FSCH AAAB +TCP4+SEGA ANx TO3 -> ana | FSCH AAAB -TCP4 ANx TO4 -> cy | FMSG AAAB +SEGA-SEGA x -> nobody
        present CMSG hi | HMSG hi | IMSG hi | UMSG ABC hi -> nobody
        bare FSCH AAAB +TCP4 ANx TO5 -> ana
        == names each hearer once ==
        named EMSG AAAB AAAB hi -> 1 | EMSG AAAB AAAC hi -> 2 1
    " }
}
