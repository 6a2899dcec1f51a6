ghost use Rattle.std.specs.Prelude.{◌≡◌, Some, None, IfOk};
ghost use Rattle.toml.specs.Parse.{parse_document};
ghost use Rattle.std.specs.Option.{option_map};
ghost use Rattle.toml.specs.View.{table_view, view};
ghost use Rattle.settings_report.specs.Faults.{Shows};
ghost use Rattle.settings_report.specs.Reports.{CountsEntries, ReportsFile, Summarises, Warns, entries_of};
ghost use Rattle.settings_report.specs.declared.report.SettingsReport.TheVariants.{Faulty};

use crate::entries::finding_at;
use crate::fault::ReportedFault;
use crate::findings::value_at;
use crate::places::{TextPlace, place_of};
use crate::summary::Summary;
use crate::warnings::{SettingsWarning, warnings_of};
use hub_settings::{KeyName, SettingsFault, read_settings};
use std::alloc::{AllocError, Global};
use std::str;
use toml::{Table, Value};

/// A report on a settings file.
#[derive(Drop)]
pub enum SettingsReport {
    /// All is well. The warnings are of entries of the menu that a hub takes, and that do not what they are for.
    Well(Summary, Vec<SettingsWarning>),
    /// This is the first fault, in the order in which a hub looks for them.
    Faulty(ReportedFault),
}

/// Tells what a hub reads in the bytes of a settings file, as [`report_settings`] does. Bytes that are no UTF-8 are no TOML.
///
/// Refused only where memory runs out.
pub fn report_file(alloc: Global, bytes: &[u8]) -> Result<SettingsReport, AllocError>
    ensures { IfOk result (ReportsFile bytes.now) }
{
    match str::from_utf8(bytes) {
        Ok(text) => report_settings(alloc, text),
        Err(error) => {
            let place = TextPlace::behind(&bytes[..error.valid_up_to()]);
            Ok(SettingsReport::Faulty(ReportedFault::of_text(
                alloc,
                place,
                "a byte that is not UTF-8",
            )?))
        }
    }
}

/// Tells what a hub reads in the text of a settings file: a summary, or the key that the hub names, with the place, what stands
/// there and what is allowed.
///
/// Refused only where memory runs out.
pub fn report_settings(alloc: Global, text: &str) -> Result<SettingsReport, AllocError>
    ensures tells { IfOk result (λ report. Summarises text.now report) }
    ensures shows { IfOk result (Shows text.now) }
    ensures counts { IfOk result (CountsEntries text.now) }
    ensures warns { IfOk result (Warns text.now) }
{
    match read_settings(alloc, text, 0) {
        Ok(settings) => {
            let table = table_of(alloc, text)?;
            let accounts = count_of(value_at(&table, "account"));
            let commands = count_of(value_at(&table, "command"));
            let summary = Summary::of(&settings, accounts, commands);
            let warnings = warnings_of(alloc, text, &table)?;
            Ok(SettingsReport::Well(summary, warnings))
        }
        Err(SettingsFault::Memory) => Err(AllocError),
        Err(SettingsFault::Text) => Ok(SettingsReport::Faulty(text_fault(alloc, text)?)),
        Err(SettingsFault::Key(key)) => Ok(SettingsReport::Faulty(key_fault(alloc, text, key)?)),
    }
}

/// Counts the entries of a list.
#[tactic(auto, using(crate::proofs::Counted::items_len_view))]
fn count_of(list: Option<&Value>) -> usize
    ensures { result ≡ entries_of (option_map (λ value. view value.now) list.entry) }
{
    let Some(value) = list else {
        return 0;
    };
    match value.as_array() {
        Some(items) => items.len(),
        None => 0,
    }
}

/// Reads a text that is TOML.
fn table_of(alloc: Global, text: &str) -> Result<Table, AllocError>
    ensures { IfOk result (λ table. parse_document text.now ≡ Some (table_view table)) }
{
    match toml::table_from_str(alloc, text) {
        Ok(table) => Ok(table),
        Err(_) => Err(AllocError),
    }
}

/// The fault of a text that is no TOML.
#[tactic(auto, using(crate::proofs::Told::no_key))]
fn text_fault(alloc: Global, text: &str) -> Result<ReportedFault, AllocError>
    ensures key { IfOk result (λ fault. fault.key ≡ None) }
    ensures shows { IfOk result (λ fault. Shows text.now (Faulty fault)) }
{
    match toml::table_from_str(alloc, text) {
        Ok(_) => ReportedFault::of_text(alloc, TextPlace::behind(b""), ""),
        Err(error) => {
            let Some(span) = error.span() else {
                return Err(AllocError);
            };
            let before = text.as_bytes().get(..span.start).unwrap_or(b"");
            ReportedFault::of_text(alloc, TextPlace::behind(before), error.message())
        }
    }
}

/// The fault at a key.
fn key_fault(alloc: Global, text: &str, key: KeyName) -> Result<ReportedFault, AllocError>
    ensures key { IfOk result (λ fault. fault.key ≡ Some key) }
    ensures shows { IfOk result (λ fault. Shows text.now (Faulty fault)) }
{
    let table = table_of(alloc, text)?;
    let name = String::from_str(alloc, key.as_str())?;
    let finding = finding_at(alloc, &table, &name)?;
    let place = place_of(alloc, text, &finding)?;
    ReportedFault::of(alloc, key, &finding, place)
}
