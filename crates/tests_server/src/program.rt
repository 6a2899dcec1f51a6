pub(crate) mod asking;
mod starting;

use crate::program::asking::{Broken, asks};

const GREETING: &[u8] =
    b"ISUP ADBASE ADTIGR ADPING ADUCMD\nISID AAAB\nIINF CT32 NIHub VEadc-hub\\s1.0\n";

const USAGE: &[u8] = b"adc_hub: usage: adc_hub stdin | adc_hub serve SETTINGS\n";

const FAILED: &[u8] = b"adc_hub: input or output\n";

#[test]
fn says_how_it_ended(rt: HostRuntime) {
    let hub = "hub.toml";
    let rows: [(&[&str], Broken, u8, &[u8], &[u8]); 11] = [
        (&["stdin"], Broken::Nothing, 0, GREETING, b""),
        (&[], Broken::Nothing, 1, b"", USAGE),
        (&["STDIN"], Broken::Nothing, 1, b"", USAGE),
        (&["stdin", "stdin"], Broken::Nothing, 1, b"", USAGE),
        (&[""], Broken::Nothing, 1, b"", USAGE),
        (&["serve"], Broken::Nothing, 1, b"", USAGE),
        (&["serve", hub, hub], Broken::Nothing, 1, b"", USAGE),
        (&["stdin"], Broken::Input, 5, b"", FAILED),
        (&["stdin"], Broken::Output, 5, b"", FAILED),
        (&["serve"], Broken::Errors, 1, b"", b""),
        (&["stdin"], Broken::Errors, 0, GREETING, b""),
    ];
    for (words, broken, status, output, errors) in rows {
        asks(&rt, words, broken, status, output, errors);
    }
}
