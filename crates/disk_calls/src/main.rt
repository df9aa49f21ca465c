//! Makes a file, changes it and syncs it through the traits, so that a trace of the system's calls can
//! be compared with what was asked: `disk_calls NAME`.
#![tactic(auto)]

ghost use Rattle.std.specs.Prelude.{◌≡◌, false};

use snd_disk::{Disk, Failed, Shelf};
use snd_files::FolderShelf;
use std::env;
use std::process::ExitCode;

/// Two writes with a gap between them, a cut, and a sync behind each step.
fn change<D: Disk>(disk: &mut D) -> Result<(), Failed>
    ensures { (D.state disk.new).name ≡ (D.state disk.old).name }
{
    disk.write_at(0, b"first")?;
    disk.sync()?;
    disk.write_at(600, b"second")?;
    disk.sync()?;
    let len = disk.len()?;
    if 10 <= len {
        disk.cut(10)?;
    }
    disk.sync()
}

/// Changes the file of this name, which is made where it is missing.
fn run<S: Shelf>(shelf: &mut S, name: &str) -> u8
    requires { (S.state shelf.old).out name.now ≡ false }
{
    let Ok(mut disk) = shelf.take(name, true) else {
        return 3;
    };
    let changed = change(&mut disk);
    shelf.give(name, disk);
    if changed.is_ok() { 0 } else { 3 }
}

fn main(rt: HostRuntime) -> ExitCode {
    let name = match env::args(&rt) {
        Ok(mut args) => args.nth(1),
        Err(_) => None,
    };
    let Some(name) = name else {
        return ExitCode::from(2);
    };
    let mut shelf = FolderShelf::new(rt);
    ExitCode::from(run(&mut shelf, name.as_str()))
}
