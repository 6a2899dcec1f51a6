use crate::rows::*;
use search_pass::may_search;

/// The rows of whether a user may search: each has the moment of the last search, the present moment and the interval, all in seconds.
#[derive(Drop)]
struct Searches;

impl Part for Searches {
    fn call(&mut self, rt: &impl Machine, row: Row<'_>, said: &mut Vec<u8>) {
        let (now, interval) = pair(row.text, ' ');
        let last = match row.name {
            "never" => None,
            _ => Some(number(rt, row.name)),
        };
        let (now, interval) = (number(rt, now), number(rt, interval));
        say_whether(rt, said, may_search(last, now, interval));
    }
}

#[test]
fn keeps_searches_apart(rt: HostRuntime) {
    rows! { rt, Searches, "
        never 0 10 -> yes
        5 14 10 -> no | 15 10 -> yes | 3 10 -> no | 3 0 -> yes
        0 9 10 -> no
        18446744073709551614 18446744073709551615 1 -> yes
        18446744073709551615 0 18446744073709551615 -> no
        0 18446744073709551615 18446744073709551615 -> yes
    " }
}
