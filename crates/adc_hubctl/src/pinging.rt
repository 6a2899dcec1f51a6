use crate::ending::ToolEnding;
use crate::figures::{FIGURES, Figure};
use crate::showing::{number_or_text, print_value, printable, text_value};
use crate::stream::connect;
use adc_line::Line;
use hub_client::{Client, HubAddress, field, field_text};
use serde_json::{Map, Value};
use std::alloc::{AllocGlobal, Global};
use std::net::Net;
use std::time::Clock;

/// The form in which a hub's figures are printed.
#[derive(Clone, Copy)]
pub(crate) enum PingForm {
    /// A line for each.
    Lines,
    /// An object of JSON.
    Json,
    /// The text exposition of Prometheus, of those that are numbers.
    Prometheus,
}

/// Prints what the hub at an address tells pingers of itself.
pub(crate) fn ping<R: Net + Clock + Print + AllocGlobal>(
    rt: &R,
    address: &HubAddress<'_>,
    seconds: u32,
    form: PingForm,
) -> Result<(), ToolEnding> {
    let hub = ask(rt, address, seconds, true)?;
    let told = match form {
        PingForm::Lines => print_fields(rt, &hub),
        PingForm::Json => print_facts(rt, &hub),
        PingForm::Prometheus => print_metrics(rt, &hub),
    };
    drop(hub);
    told
}

/// Prints the topic of the hub at an address, or says on standard error that there is none.
pub(crate) fn show_topic<R: Net + Clock + Print + Eprint + AllocGlobal>(
    rt: &R,
    address: &HubAddress<'_>,
    seconds: u32,
) -> Result<(), ToolEnding> {
    let hub = ask(rt, address, seconds, false)?;
    let topic = printable_field(rt.alloc(), &hub, "DE");
    drop(hub);
    let topic = topic?;
    if topic.is_empty() {
        return Ok(eprintln!(rt; "adc_hubctl: the hub has no topic")?);
    }
    Ok(println!(rt; "{topic}")?)
}

// What owns much lets it go by a call, in one place: a body that does so where each of its calls may fail is dear to prove.

/// Asks the hub at an address what it tells of itself, as a pinger or as any other client.
fn ask<R: Net + Clock + AllocGlobal>(
    rt: &R,
    address: &HubAddress<'_>,
    seconds: u32,
    pinger: bool,
) -> Result<Line, ToolEnding> {
    let mut client = Client::new(rt.alloc(), connect(rt, address, seconds)?);
    let told = client.hello(pinger);
    drop(client);
    Ok(told?.hub)
}

fn print_fields<R: Print + AllocGlobal>(rt: &R, hub: &Line) -> Result<(), ToolEnding> {
    for figure in FIGURES {
        if field(hub, figure.name).is_some() {
            print_field(rt, hub, figure)?;
        }
    }
    Ok(())
}

fn print_field<R: Print + AllocGlobal>(
    rt: &R,
    hub: &Line,
    figure: Figure,
) -> Result<(), ToolEnding> {
    let text = printable_field(rt.alloc(), hub, figure.name)?;
    let key = figure.key;
    Ok(println!(rt; "{key}: {text}")?)
}

fn printable_field(alloc: Global, hub: &Line, name: &str) -> Result<String, ToolEnding> {
    let text = field_text(alloc, hub, name)?;
    Ok(printable(alloc, &text)?)
}

fn print_metrics<R: Print + AllocGlobal>(rt: &R, hub: &Line) -> Result<(), ToolEnding> {
    for figure in FIGURES {
        if let (Some((name, help)), Some(number)) = (figure.metric, number_of(hub, figure.name)) {
            print_metric(rt, name, help, number)?;
        }
    }
    Ok(())
}

fn number_of(hub: &Line, name: &str) -> Option<u64> {
    match field(hub, name)?.parse::<u64>() {
        Ok(number) => Some(number),
        Err(_) => None,
    }
}

fn print_metric<R: Print>(rt: &R, name: &str, help: &str, number: u64) -> Result<(), ToolEnding> {
    println!(rt; "# HELP {name} {help}")?;
    println!(rt; "# TYPE {name} gauge")?;
    Ok(println!(rt; "{name} {number}")?)
}

fn print_facts<R: Print + AllocGlobal>(rt: &R, hub: &Line) -> Result<(), ToolEnding> {
    let mut facts = Map::new(rt.alloc());
    match add_facts(rt.alloc(), hub, &mut facts) {
        Ok(()) => print_value(rt, Value::Object(facts)),
        Err(ending) => {
            drop(facts);
            Err(ending)
        }
    }
}

fn add_facts(alloc: Global, hub: &Line, facts: &mut Map<String, Value>) -> Result<(), ToolEnding> {
    for figure in FIGURES {
        if field(hub, figure.name).is_some() {
            add_fact(alloc, facts, figure.key, fact(alloc, hub, figure)?)?;
        }
    }
    Ok(())
}

fn fact(alloc: Global, hub: &Line, figure: Figure) -> Result<Value, ToolEnding> {
    let text = printable_field(alloc, hub, figure.name)?;
    let value = if figure.metric.is_some() {
        number_or_text(alloc, &text)
    } else {
        text_value(alloc, &text)
    };
    drop(text);
    Ok(value?)
}

fn add_fact(
    alloc: Global,
    facts: &mut Map<String, Value>,
    key: &str,
    value: Value,
) -> Result<(), ToolEnding> {
    facts.insert(String::from_str(alloc, key)?, value)?;
    Ok(())
}
