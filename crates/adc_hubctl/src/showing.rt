use crate::ending::ToolEnding;
use hub_client::HubUser;
use serde_json::{Value, json};
use std::alloc::{AllocError, AllocGlobal, Global};
use ucd_category::GeneralCategory;
use unicode_width::UnicodeWidthStr;

/// A text from a hub without what may move a terminal's cursor or turn round what stands beside it: a dot stands for each character of
/// control, of format, or that separates lines.
pub(crate) fn printable(alloc: Global, text: &str) -> Result<String, AllocError> {
    text.chars()
        .map(|c| if is_hidden(c) { '.' } else { c })
        .collect(alloc)
}

fn is_hidden(c: char) -> bool {
    matches!(
        GeneralCategory::for_char(c),
        GeneralCategory::Control
            | GeneralCategory::Format
            | GeneralCategory::LineSeparator
            | GeneralCategory::ParagraphSeparator
    )
}

/// A number where the digits are one that JSON has, else a text.
pub(crate) fn number_or_text(alloc: Global, digits: &str) -> Result<Value, AllocError> {
    match digits.parse::<u64>() {
        Ok(number) => json!(in alloc; number),
        Err(_) => text_value(alloc, digits),
    }
}

pub(crate) fn text_value(alloc: Global, text: &str) -> Result<Value, AllocError> {
    json!(in alloc; text)
}

/// Prints JSON in one line.
pub(crate) fn print_value<R: Print + AllocGlobal>(rt: &R, value: Value) -> Result<(), ToolEnding> {
    let text = value.to_string(rt.alloc());
    drop(value);
    let text = text?;
    Ok(println!(rt; "{text}")?)
}

/// What is shown of a user: no text has a character that [`printable`] takes away.
#[derive(Drop)]
struct Shown {
    nick: String,
    role: String,
    cid: String,
    address: String,
    share: String,
    description: String,
}

impl Shown {
    fn of(alloc: Global, user: &HubUser) -> Result<Shown, AllocError> {
        Ok(Shown {
            nick: printable(alloc, &user.nick)?,
            role: String::from_str(alloc, user.role.name())?,
            cid: printable(alloc, &user.cid)?,
            address: printable(alloc, &user.address)?,
            share: printable(alloc, &user.share)?,
            description: printable(alloc, &user.description)?,
        })
    }

    /// Its cells but for the last, which is the description.
    fn cells(&self) -> [&str; 5] {
        [
            &self.nick,
            &self.role,
            &self.cid,
            or_dash(&self.address),
            or_dash(&self.share),
        ]
    }
}

/// A cell is never empty, so that each row has the same number of words up to the description.
fn or_dash(cell: &str) -> &str {
    if cell.is_empty() { "-" } else { cell }
}

const HEAD: [&str; 5] = ["NICK", "ROLE", "CID", "ADDRESS", "SHARE"];

/// Prints users as a table: nick, role, client identifier, address, share in bytes, description.
pub(crate) fn print_table<R: Print + AllocGlobal>(
    rt: &R,
    users: &[HubUser],
) -> Result<(), ToolEnding> {
    let mut shown = Vec::new(rt.alloc());
    let done = match add_shown(rt.alloc(), users, &mut shown) {
        Ok(()) => print_rows(rt, &shown),
        Err(refused) => Err(refused.into()),
    };
    drop(shown);
    done
}

fn add_shown(alloc: Global, users: &[HubUser], shown: &mut Vec<Shown>) -> Result<(), AllocError> {
    for user in users {
        shown.push(Shown::of(alloc, user)?)?;
    }
    Ok(())
}

fn print_rows<R: Print + AllocGlobal>(rt: &R, rows: &[Shown]) -> Result<(), ToolEnding> {
    let mut widths = [0; 5];
    widen(&mut widths, HEAD);
    for row in rows {
        widen(&mut widths, row.cells());
    }
    print_row(rt, HEAD, widths, "DESCRIPTION")?;
    for row in rows {
        print_row(rt, row.cells(), widths, &row.description)?;
    }
    Ok(())
}

/// Makes columns wide enough for these cells.
fn widen(widths: &mut [usize; 5], cells: [&str; 5]) {
    for (width, cell) in widths.iter_mut().zip(cells) {
        *width = (*width).max(cell.width());
    }
}

fn print_row<R: Print + AllocGlobal>(
    rt: &R,
    cells: [&str; 5],
    widths: [usize; 5],
    last: &str,
) -> Result<(), ToolEnding> {
    let mut row = String::new(rt.alloc());
    for (cell, width) in cells.into_iter().zip(widths) {
        row.push_str(cell)?;
        for _blank in cell.width()..width {
            row.push(' ')?;
        }
        row.push_str("  ")?;
    }
    row.push_str(last)?;
    let row = row.trim_end();
    Ok(println!(rt; "{row}")?)
}

/// Prints users as a list in JSON.
pub(crate) fn print_json<R: Print + AllocGlobal>(
    rt: &R,
    users: &[HubUser],
) -> Result<(), ToolEnding> {
    let mut list = Vec::new(rt.alloc());
    match add_users(rt.alloc(), users, &mut list) {
        Ok(()) => print_value(rt, Value::Array(list)),
        Err(refused) => {
            drop(list);
            Err(refused.into())
        }
    }
}

fn add_users(alloc: Global, users: &[HubUser], list: &mut Vec<Value>) -> Result<(), AllocError> {
    for user in users {
        list.push(user_value(alloc, user)?)?;
    }
    Ok(())
}

fn user_value(alloc: Global, user: &HubUser) -> Result<Value, AllocError> {
    let shown = Shown::of(alloc, user)?;
    let value = shown_value(alloc, &shown);
    drop(shown);
    value
}

fn shown_value(alloc: Global, shown: &Shown) -> Result<Value, AllocError> {
    let share = number_or_text(alloc, &shown.share)?;
    json!(in alloc; {
        "nick": &shown.nick,
        "role": &shown.role,
        "cid": &shown.cid,
        "address": &shown.address,
        "share": share,
        "description": &shown.description
    })
}
