ghost use Rattle.std.specs.Prelude.{◌≡◌, Some, None, IfOk, [], codes, string_bytes, unwrap_or};
ghost use Rattle.std.specs.Fmt.{WritesOnOk};
ghost use Rattle.settings_report.specs.Allowances.{SaysAllowed};
ghost use Rattle.settings_report.specs.Faults.{HidesPasswords, TellsFinding};
ghost use Rattle.settings_report.specs.Findings as findings;
ghost use Rattle.settings_report.specs.Findings.{text_of};
ghost use Rattle.settings_report.specs.Printed.{entry_text, fault_text, inner_text, told_at_key};

use crate::allowed::{Allowed, TOML};
use crate::findings::Finding;
use crate::places::TextPlace;
use hub_settings::KeyName;
use std::alloc::{AllocError, Global};
use std::fmt;

/// The fault of a settings file.
#[derive(Drop)]
pub struct ReportedFault {
    /// The key of the settings at which it is; `None` where the text is no TOML.
    pub key: Option<KeyName>,
    /// The entry of the list at that key, counted from 1; 0 where it is in no entry.
    pub entry: usize,
    /// The key of that entry; empty where it is at none.
    pub inner: String,
    /// The place: where the statement begins that has it, or where the text stops being TOML.
    pub place: TextPlace,
    /// The words for what stands there. A password is not shown.
    pub found: String,
    /// What may stand there.
    pub allowed: Allowed,
}

impl ReportedFault {
    /// The fault that was found at a key.
    pub(crate) fn of(
        alloc: Global,
        key: KeyName,
        finding: &Finding<'_>,
        place: TextPlace,
    ) -> Result<ReportedFault, AllocError>
        ensures key { IfOk result (λ fault. fault.key ≡ Some key) }
        ensures place { IfOk result (λ fault. fault.place ≡ place) }
        ensures tells { IfOk result (λ fault. key ≡ finding.now.key.now → TellsFinding finding.now fault) }
        ensures hides { IfOk result (λ fault. key ≡ finding.now.key.now → findings.FindingHidesPasswords finding.now → HidesPasswords fault) }
    {
        Ok(ReportedFault {
            key: Some(key),
            entry: finding.entry.map_or(0, |entry| entry.saturating_add(1)),
            inner: String::from_str(alloc, inner_key(finding))?,
            place,
            found: finding.words(alloc)?,
            allowed: finding.allowed,
        })
    }

    /// The fault of a text that is no TOML.
    pub(crate) fn of_text(
        alloc: Global,
        place: TextPlace,
        found: &str,
    ) -> Result<ReportedFault, AllocError>
        ensures key { IfOk result (λ fault. fault.key ≡ None) }
        ensures entry { IfOk result (λ fault. fault.entry ≡ 0) }
        ensures inner { IfOk result (λ fault. string_bytes fault.inner ≡ []) }
        ensures place { IfOk result (λ fault. fault.place ≡ place) }
        ensures found { IfOk result (λ fault. string_bytes fault.found ≡ found.now) }
        ensures allowed { IfOk result (λ fault. SaysAllowed (codes "TOML") fault.allowed) }
    {
        Ok(ReportedFault {
            key: None,
            entry: 0,
            inner: String::new(alloc),
            place,
            found: String::from_str(alloc, found)?,
            allowed: TOML,
        })
    }
}

/// Gives the key of the entry where it was found; an empty text where it is at none.
fn inner_key<'a>(finding: &Finding<'a>) -> &'a str
    ensures { result.now ≡ unwrap_or (text_of finding.now.inner) [] }
{
    finding.inner.unwrap_or("")
}

impl fmt::Display for ReportedFault {
    ghost output = { λ fault. Some (fault_text fault) };

    fn fmt<W: fmt::Write>(&self, f: &mut fmt::Formatter<W>) -> fmt::Result {
        let (line, column) = (self.place.line, self.place.column);
        write!(f, "{line}:{column}: ")?;
        match &self.key {
            Some(key) => write_at_key(f, key.as_str(), self),
            None => {
                let found = self.found.as_str();
                write!(f, "no TOML: {found}")
            }
        }
    }
}

/// Writes what stands at a key of the settings, and what is allowed there.
fn write_at_key<W: fmt::Write>(
    f: &mut fmt::Formatter<W>,
    key: &str,
    fault: &ReportedFault,
) -> fmt::Result
    ensures { WritesOnOk W.write_str_gives f.old result (told_at_key key.now fault.now) f.new }
{
    let (found, allowed) = (fault.found.as_str(), fault.allowed);
    f.write_str(key)?;
    write_entry(f, fault.entry)?;
    write_inner(f, fault.inner.as_str())?;
    write!(f, ": found {found}; allowed: {allowed}")
}

/// Writes the number of an entry, behind a blank; nothing of 0.
fn write_entry<W: fmt::Write>(f: &mut fmt::Formatter<W>, entry: usize) -> fmt::Result
    ensures { WritesOnOk W.write_str_gives f.old result (entry_text entry) f.new }
{
    if entry > 0 {
        write!(f, " {entry}")?;
    }
    Ok(())
}

/// Writes the key of an entry, behind a comma and a blank; nothing of an empty text.
fn write_inner<W: fmt::Write>(f: &mut fmt::Formatter<W>, inner: &str) -> fmt::Result
    ensures { WritesOnOk W.write_str_gives f.old result (inner_text inner.now) f.new }
{
    if !inner.is_empty() {
        write!(f, ", {inner}")?;
    }
    Ok(())
}
