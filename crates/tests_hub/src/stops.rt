//! A conversation that goes otherwise than it is told stops its test.
use crate::conversation::talk;

#[test]
#[should_panic(expected = "line 3, ana hears BMSG AAAB ho: Ok(\"BMSG AAAB hi\\n\")")]
fn another_line_is_heard(rt: HostRuntime) {
    talk! { rt, "\nana enters\nana says BMSG AAAB hi\nana hears BMSG AAAB ho" }
}

#[test]
#[should_panic(expected = "line 2, ana hears BMSG AAAB hi: 0 lines, ended false")]
fn no_line_waits(rt: HostRuntime) {
    talk! { rt, "\nana enters\nana hears BMSG AAAB hi" }
}

#[test]
#[should_panic(expected = "line 3, ana hears nothing: 1 lines, ended false")]
fn a_line_waits_that_is_not_told(rt: HostRuntime) {
    talk! { rt, "\nana enters\nana says BMSG AAAB hi\nana hears nothing" }
}

#[test]
#[should_panic(expected = "line 3, ana hears last BMSG AAAB hi: 1 lines, ended false")]
fn more_may_come(rt: HostRuntime) {
    talk! { rt, "\nana enters\nana says BMSG AAAB hi\nana hears last BMSG AAAB hi" }
}

#[test]
#[should_panic(expected = "line 3, ana hears ISTA 240 Wrong\\sSID: 1 lines, ended true")]
fn nothing_will_follow(rt: HostRuntime) {
    talk! { rt, "\nana enters\nana is ended by BMSG AAAC hi\nana hears ISTA 240 Wrong\\sSID" }
}

#[test]
#[should_panic(expected = "line 2, ana is ended by BMSG AAAB hi: Kept")]
fn a_line_keeps_who_sends_it(rt: HostRuntime) {
    talk! { rt, "\nana enters\nana is ended by BMSG AAAB hi" }
}

#[test]
#[should_panic(expected = "line 2, ana says BMSG AAAC hi: Ended")]
fn a_line_ends_who_sends_it(rt: HostRuntime) {
    talk! { rt, "\nana enters\nana says BMSG AAAC hi" }
}

#[test]
#[should_panic(expected = "line 3, nobody is concerned: Everybody")]
fn a_call_concerns_others(rt: HostRuntime) {
    talk! { rt, "\nana enters\nana says BMSG AAAB hi\nnobody is concerned" }
}

#[test]
#[should_panic(expected = "line 1, eve is refused Full: Ok(")]
fn a_connection_is_admitted(rt: HostRuntime) {
    talk! { rt, "\neve is refused Full" }
}

#[test]
#[should_panic(expected = "line 2, the hub is refused Limit: no step")]
fn a_hub_is_opened(rt: HostRuntime) {
    talk! { rt, "\nwith max_users 900\nthe hub is refused Limit" }
}

#[test]
#[should_panic(expected = "Limit, not ana joins")]
fn a_hub_is_refused(rt: HostRuntime) {
    talk! { rt, "\nwith max_users 901\nana joins" }
}

#[test]
#[should_panic(expected = "line 2, ana dances: no step")]
fn a_word_is_unknown(rt: HostRuntime) {
    talk! { rt, "\nana enters\nana dances" }
}

#[test]
#[should_panic(expected = "unknown setting colour")]
fn a_setting_is_unknown(rt: HostRuntime) {
    talk! { rt, "\nwith colour red\nana joins" }
}

#[test]
#[should_panic(expected = "unknown spelling HMSG <P4>")]
fn a_spelling_is_unknown(rt: HostRuntime) {
    talk! { rt, "\nana joins\nana says HMSG <P4>" }
}

#[test]
#[should_panic(expected = "line 1, ana says HSUP ADBASE: nobody is called ana")]
fn nobody_has_the_name(rt: HostRuntime) {
    talk! { rt, "\nana says HSUP ADBASE" }
}

#[test]
#[should_panic(expected = "there is more to come")]
fn rounds_have_no_end(rt: HostRuntime) {
    talk! { rt, "\nfor 1 to 2:\nana joins" }
}
