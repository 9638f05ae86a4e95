// What is said to people on standard error.
use port_os::{FileDisk, FileShelf, Reason, TcpDoor, TcpLink};
use std::env;
use std::io::IsTerminal;
use std::net::TcpStream;
use zk_cli::{Finish, Part};

/// What a run of the program hands back.
type Ended<'a> = Finish<FileDisk<&'a HostRuntime>, TcpDoor<&'a HostRuntime>>;

/// Whether people read standard error: it is a terminal, or the environment has `ZK_EXPLAIN`.
fn is_read(rt: &HostRuntime) -> bool {
    rt.stderr().is_terminal() || env::var(rt, "ZK_EXPLAIN").is_ok()
}

/// Says why a call failed, if one did.
fn say(rt: &HostRuntime, reason: Option<&Reason>) {
    if let Some(reason) = reason {
        let _ = eprintln!(rt; "{reason}");
    }
}

/// Says why the first call of a link failed, if one did.
fn say_link(rt: &HostRuntime, link: &TcpLink<TcpStream, &HostRuntime>) {
    say(rt, link.reason());
}

/// Says of each object of the outside why its first call that failed did, where people read it and the run failed.
pub fn explain(rt: &HostRuntime, shelf: &FileShelf<&HostRuntime>, finish: &Ended<'_>) {
    if finish.status == 0 || !is_read(rt) {
        return;
    }
    say(rt, shelf.reason());
    say(rt, finish.journal.reason());
    say(rt, finish.door.reason());
    match &finish.part {
        Part::Proved(note) => say_link(rt, &note.link),
        Part::Served(notes) => {
            for note in notes {
                say_link(rt, &note.link);
                for made in &note.tries {
                    say_link(rt, &made.link);
                }
            }
        }
        Part::Brokered(notes) => {
            for note in notes {
                say_link(rt, &note.link);
            }
        }
        _ => {}
    }
}
