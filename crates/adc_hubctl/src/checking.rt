use crate::ending::{ToolEnding, unread};
use settings_report::{SettingsReport, SettingsWarning, Summary, report_file};
use std::alloc::{AllocGlobal, Global};
use std::fs::{self, Files};
use std::io;
use std::net::{Net, SocketAddr, SocketAddrV4, TcpListener};

/// Says what a hub would read in this settings file, and with `listen` whether it could listen at the address. Refused: `Told` where
/// the file is at fault, on standard error.
pub(crate) fn check<R: Net + Files + AllocGlobal + Print + Eprint>(
    rt: &R,
    path: &str,
    listen: bool,
) -> Result<(), ToolEnding> {
    let bytes = match fs::read(rt, path) {
        Ok(bytes) => bytes,
        Err(error) => return Err(unread(rt.alloc(), path, &error)),
    };
    match report_file(rt.alloc(), &bytes)? {
        SettingsReport::Well(summary, warnings) => {
            let told = tell(rt, path, &summary, &warnings);
            drop(warnings);
            told?;
            if listen {
                try_address(rt, summary.listen)?;
            }
            Ok(())
        }
        SettingsReport::Faulty(fault) => {
            // Nobody may be left to read it; the status says it too.
            let _ = eprintln!(rt; "{path}:{fault}");
            Err(ToolEnding::Told)
        }
    }
}

fn tell<R: Print + Eprint>(
    rt: &R,
    path: &str,
    summary: &Summary,
    warnings: &[SettingsWarning],
) -> io::Result<()> {
    for warning in warnings {
        eprintln!(rt; "warning: {path}:{warning}")?;
    }
    print_summary(rt, path, summary)
}

fn print_summary(rt: &impl Print, path: &str, summary: &Summary) -> io::Result<()> {
    let (listen, hash) = (summary.listen, summary.hash_name());
    let (accounts, commands, descriptors) = (
        summary.accounts,
        summary.commands,
        summary.descriptors,
    );
    println!(rt; "{path}: all is well")?;
    println!(rt; "address: {listen}")?;
    println!(rt; "hash: {hash}")?;
    println!(rt; "accounts: {accounts}")?;
    println!(rt; "menu entries: {commands}")?;
    println!(rt; "descriptors: {descriptors}")
}

/// Listens at an address and stops at once. Refused: `Unreachable` where it cannot be had.
fn try_address<R: Net + AllocGlobal>(rt: &R, address: SocketAddrV4) -> Result<(), ToolEnding> {
    match TcpListener::bind(rt, SocketAddr::V4(address)) {
        Ok(listener) => {
            drop(listener);
            Ok(())
        }
        Err(error) => Err(unlistened(rt.alloc(), address, &error)),
    }
}

fn unlistened(alloc: Global, address: SocketAddrV4, error: &io::Error) -> ToolEnding {
    let words = match error.kind() {
        io::ErrorKind::OutOfMemory => return ToolEnding::Memory,
        io::ErrorKind::AddrInUse => "is in use: a hub may run there",
        io::ErrorKind::AddrNotAvailable => "is no address of this machine",
        io::ErrorKind::PermissionDenied => "is not permitted, as ports below 1024 often are not",
        _ => "cannot be listened at",
    };
    match address.to_string(alloc) {
        Ok(address) => ToolEnding::Unreachable(address, words),
        Err(_) => ToolEnding::Memory,
    }
}
