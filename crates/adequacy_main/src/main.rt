//! The program: real folders, standard input, standard output and standard error over the proved library.
#![tactic(auto)]

mod folder_shelf;
mod std_console;
mod std_sink;

use adequacy::{Unread, report_unread};
use folder_shelf::FolderShelf;
use ra_base::{NoPause, Sink, Status};
use result_recorders::{BindingCut, Plain, Shortfall, StorageLevel};
use sample_totals::Recorder;
use std::alloc::Global;
use std::io::Read;
use std::process::ExitCode;
use std::rt::{Env, Files};
use std::sync::Wait;
use std::thread::Threads;
use std::{env, io};
use std_console::StdConsole;
use std_sink::StdSink;

/// The words of the command line, without the program's own name.
fn words_of<R: Env + AllocGlobal>(rt: &R) -> Result<Vec<String>, Unread> {
    let mut words = Vec::new(rt.alloc());
    match env::args(rt) {
        Ok(args) => {
            for word in args.skip(1) {
                words.push(word).map_err(|_| Unread::OutOfMemory)?;
            }
            Ok(words)
        }
        Err(error) if error.kind() == io::ErrorKind::OutOfMemory => Err(Unread::OutOfMemory),
        Err(_) => Err(Unread::NotText),
    }
}

/// A recorder in a box.
fn boxed<R: Recorder>(alloc: Global, recorder: R) -> Result<Box<R>, Unread> {
    Box::new(alloc, recorder).map_err(|_| Unread::OutOfMemory)
}

/// Runs the words of the command line, with one recorder of each kind, in the order of kinds.
fn run<
    R: Threads + Wait + Sync + Env + Files + AllocGlobal,
    F: Read + Send,
    O: Sink + Send,
    E: Sink,
>(rt: &R, console: &mut StdConsole<F>, out: &mut O, err: &mut E) -> Result<Status, Unread> {
    let alloc = rt.alloc();
    let words = words_of(rt)?;
    let recorders: [Box<dyn Recorder>; 4] = [
        boxed(alloc, Plain::new(alloc))?,
        boxed(alloc, Shortfall::new(alloc))?,
        boxed(alloc, StorageLevel::new(alloc))?,
        boxed(alloc, BindingCut::new(alloc))?,
    ];
    let mut recorders = Vec::from_array(alloc, recorders).map_err(|_| Unread::OutOfMemory)?;
    let mut shelf = FolderShelf::new(rt);
    Ok(adequacy::adequacy(
        rt,
        alloc,
        &words,
        &mut shelf,
        console,
        out,
        err,
        &NoPause,
        &mut recorders,
    ))
}

fn main(rt: HostRuntime) -> ExitCode {
    let mut console = StdConsole::new(rt.stdin());
    let mut out = StdSink::new(rt.stdout());
    let mut err = StdSink::new(rt.stderr());
    let status = match run(&rt, &mut console, &mut out, &mut err) {
        Ok(status) => status,
        Err(reason) => report_unread(reason, &mut err),
    };
    ExitCode::from(status.code())
}

#[cfg(test)]
mod tests;
