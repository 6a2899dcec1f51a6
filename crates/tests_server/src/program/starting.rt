// A server that is not started, and why.
use crate::machine::*;
use crate::program::asking::{Broken, asks};
use std::fs::{self, Files};

/// A file that no other run of these tests has.
#[derive(Drop)]
struct Scratch {
    path: String,
}

impl Scratch {
    /// Names a file whose name ends like this. It is not there yet.
    fn new<R: RandomSource + AllocGlobal + Abort>(rt: &R, name: &str) -> Scratch {
        let mut number = [0; 8];
        assert!(rt; rt.fill_bytes(&mut number).is_ok());
        let number = u64::from_ne_bytes(number);
        let path = again!(rt; format!(in rt.alloc(); "/tmp/adc_hub_{number:016x}_{name}"));
        Scratch { path }
    }

    /// Makes a file that holds this.
    fn of<R: RandomSource + AllocGlobal + Files + Abort>(rt: &R, name: &str, it: &[u8]) -> Scratch {
        let scratch = Scratch::new(rt, name);
        scratch.holds(rt, it);
        scratch
    }

    /// Writes this and nothing else to it.
    fn holds(&self, rt: &(impl Files + Abort), bytes: &[u8]) {
        assert!(rt; fs::write(rt, self.path.as_str(), bytes).is_ok());
    }

    /// Removes it.
    fn ends(self, rt: &(impl Files + Abort)) {
        assert!(rt; fs::remove_file(rt, self.path.as_str()).is_ok());
    }

    /// Stops the test unless the program, asked to serve the hub of this file, ends by this status, and says just this.
    fn refuses<R: ProgramMachine>(&self, rt: &R, status: u8, said: &[u8]) {
        refuses(rt, self.path.as_str(), status, said);
    }
}

/// Stops the test unless the program, asked to serve the hub of the file there, ends by this status, and says just this.
fn refuses<R: ProgramMachine>(rt: &R, path: &str, status: u8, said: &[u8]) {
    asks(rt, &["serve", path], Broken::Nothing, status, b"", said);
}

#[test]
fn settings_that_are_not_there_or_no_text(rt: HostRuntime) {
    refuses(&rt, "/nowhere/hub.toml", 1, b"adc_hub: settings: file\n");
    let rows: [(&[u8], &[u8]); 4] = [
        (b"name = \"\xff\"\n", b"adc_hub: settings: text\n"),
        (b"name = \n", b"adc_hub: settings: text\n"),
        (b"name = \"\"\n", b"adc_hub: settings: name\n"),
        (b"colour = 1\n", b"adc_hub: settings: colour\n"),
    ];
    let file = Scratch::of(&rt, "hub.toml", b"");
    for (bytes, said) in rows {
        file.holds(&rt, bytes);
        file.refuses(&rt, 1, said);
    }
    file.ends(&rt);
}

#[test]
fn a_seed_that_is_too_short(rt: HostRuntime) {
    let seed = Scratch::of(&rt, "seed.bin", &[7; 31]);
    let path = seed.path.as_str();
    let text =
        again!(&rt; format!(in rt.alloc(); "seed_file = \"{path}\"\ntables = \"/nowhere\"\n"));
    let file = Scratch::of(&rt, "hub.toml", text.as_bytes());
    file.refuses(&rt, 1, b"adc_hub: settings: seed_file\n");
    file.ends(&rt);
    seed.ends(&rt);
}

#[test]
fn tables_of_another_length(rt: HostRuntime) {
    let tables = Scratch::of(&rt, "tables.bin", b"");
    let path = tables.path.as_str();
    let text = again!(&rt; format!(in rt.alloc(); "tables = \"{path}\"\nlisten = \"0.0.0.0:0\"\n"));
    let file = Scratch::of(&rt, "hub.toml", text.as_bytes());
    let bytes = [0; 8_193];
    for count in [0, 8_191, 8_193] {
        tables.holds(&rt, &bytes[..count]);
        file.refuses(&rt, 2, b"adc_hub: tables\n");
    }
    tables.ends(&rt);
    file.refuses(&rt, 2, b"adc_hub: tables\n");
    file.ends(&rt);
}

#[test]
fn an_address_that_is_not_here(rt: HostRuntime) {
    // An address that is kept for examples, so that no machine has it.
    let text = b"listen = \"203.0.113.1:4111\"\nhash = \"first24\"\n";
    let file = Scratch::of(&rt, "hub.toml", text);
    file.refuses(&rt, 3, b"adc_hub: address\n");
    file.ends(&rt);
}
