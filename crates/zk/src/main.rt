//! The program: the real objects, and the top call.
#![tactic(auto)]

mod explain;

use crate::explain::explain;
use command_words::help_text;
use port_os::{FileDisk, FileShelf, NoticeSink, OutputSink, TcpDoor, found_no_memory, read_seed};
use std::alloc::Global;
use std::process::ExitCode;
use std::rt::Env;
use std::{env, io};
use zk_cli::{Finish, run_zk};
use zk_port::{PortFault, Sink};

/// The words after the program's name.
fn words<R: Env + AllocGlobal>(rt: &R) -> io::Result<Vec<String>> {
    let mut words = Vec::new(rt.alloc());
    for word in env::args(rt)?.skip(1) {
        words.push(word)?;
    }
    Ok(words)
}

/// Has freed memory kept for later use. The C library's allocator gives a large piece back to the system when it is freed, until
/// one of its size has been freed once (mallopt(3), M_MMAP_THRESHOLD, whose bound is 32 MiB); new pages take a fault each.
fn keep_freed_memory(alloc: Global) {
    let _ = Vec::<u8>::with_capacity(alloc, 31 << 20);
}

/// Writes a help text. A write that fails is the program's write fault.
fn say_help<O: Sink>(alloc: Global, out: &mut O, text: &str) -> ExitCode {
    match out.put(alloc, text.as_bytes()) {
        Ok(()) => ExitCode::SUCCESS,
        Err(PortFault::NoMemory) => ExitCode::from(7),
        Err(PortFault::Failed) => ExitCode::from(4),
    }
}

fn main(rt: HostRuntime) -> ExitCode {
    let alloc: Global = rt.alloc();
    keep_freed_memory(alloc);
    let mut out = OutputSink::new(&rt);
    let words = match words(&rt) {
        Ok(words) => words,
        Err(error) => {
            if found_no_memory(&error) {
                let _ = out.put(alloc, b"memory\n");
                return ExitCode::from(7);
            }
            // Words that are no text ask for nothing.
            Vec::new(alloc)
        }
    };
    if let Some(text) = help_text(&words) {
        return say_help(alloc, &mut out, text);
    }
    let Ok(seed) = read_seed(&rt) else {
        let _ = out.put(alloc, b"failed seed\n");
        return ExitCode::from(4);
    };
    let mut shelf = FileShelf::new(&rt);
    let finish = run_zk(
        &rt,
        alloc,
        &words,
        &mut shelf,
        FileDisk::new(&rt),
        TcpDoor::new(&rt),
        &seed,
        &mut out,
        &mut NoticeSink::new(&rt),
    );
    explain(&rt, &shelf, &finish);
    let Finish {
        status,
        journal: _,
        door: _,
        part: _,
    } = finish;
    ExitCode::from(status)
}
