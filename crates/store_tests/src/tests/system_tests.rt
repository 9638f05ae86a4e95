// Files, journals and connections of this machine.
ghost use Rattle.std.specs.Prelude.{IfOk};
ghost use Rattle.zk_port.specs.Doors.{IsFreshLink};

use port_os::{FileDisk, FileShelf, OutputSink, TcpDoor, TcpLink, read_seed};
use std::alloc::Global;
use std::net::{Net, OpenListener, TcpListener};
use std::os::unix::fs::PermissionsExt;
use std::test::Fail;
use std::time::{Clock, Duration};
use std::{fs, thread};
use zk_port::{Access, Disk, Door, Failed, Link, LoadFault, PortFault, Shelf, Sink};

/// A name under which nothing is.
const NOWHERE: &str = "no_such_folder/file";

/// For how many seconds a silent peer is waited for.
const SECONDS: u32 = 1;

/// Waits so long that two such waits are more than a silent peer is waited for.
fn pause(rt: &impl Clock) {
    thread::sleep(rt, Duration::from_millis(600));
}

/// A file keeps what was stored, is loaded up to its length and no shorter, and what isn't there counts as a fault.
#[test]
fn files_are_stored_and_loaded(rt: HostRuntime) -> Result<(), Fail> {
    let alloc: Global = rt.alloc();
    let mut shelf = FileShelf::new(&rt);
    assert!(rt; shelf.store(alloc, "stored", b"first and more").is_ok());
    assert!(rt; shelf.store(alloc, "stored", b"bytes").is_ok());
    let bytes = shelf.load(alloc, "stored", 5);
    assert!(rt; matches!(&bytes, Ok(bytes) if bytes.as_slice() == b"bytes".as_slice()));
    let long = shelf.load(alloc, "stored", 4);
    assert!(rt; matches!(&long, Err(LoadFault::TooLong { limit: 4 })));
    assert!(rt; shelf.faults() == 0);
    let missing = shelf.load(alloc, NOWHERE, 4);
    assert!(rt; matches!(&missing, Err(LoadFault::Failed)));
    assert!(rt; shelf.faults() == 1);
    let refused = shelf.store(alloc, NOWHERE, b"");
    assert!(rt; refused == Err(PortFault::Failed));
    assert!(rt; shelf.faults() == 2);
    let mut out = OutputSink::new(&rt);
    assert!(rt; out.put(alloc, b"").is_ok());
    assert!(rt; out.faults() == 0);
    fs::remove_file(&rt, "stored")?;
    Ok(())
}

/// What is written to a file in place is read back, up to its end, by a disk that is opened later too; a file that isn't there is
/// not made.
#[test]
fn a_file_is_written_in_place(rt: HostRuntime) -> Result<(), Fail> {
    let alloc: Global = rt.alloc();
    let mut shelf = FileShelf::new(&rt);
    assert!(rt; shelf.store(alloc, "journal", b"header and slots").is_ok());
    let mut disk = FileDisk::new(&rt);
    assert!(rt; disk.choose("journal", Access::Own).is_ok());
    assert!(rt; disk.write_at(7, b"AND").is_ok());
    assert!(rt; disk.write_at(16, b" more").is_ok());
    assert!(rt; disk.sync().is_ok());
    assert!(rt; disk.faults() == 0);
    drop(disk);
    let mut other = FileDisk::new(&rt);
    assert!(rt; other.choose("journal", Access::Own).is_ok());
    let mut buffer = [b'.'; 24];
    assert!(rt; other.read(3, &mut buffer) == Ok(18));
    assert!(rt; buffer == *b"der AND slots more......");
    assert!(rt; other.read(99, &mut buffer) == Ok(0));
    assert!(rt; other.faults() == 0);
    let mut none = FileDisk::new(&rt);
    assert!(rt; none.sync() == Err(Failed));
    assert!(rt; none.choose("no_journal", Access::Own) == Err(Failed));
    assert!(rt; none.read(0, &mut buffer) == Err(Failed));
    assert!(rt; none.faults() == 3);
    assert!(rt; matches!(shelf.load(alloc, "no_journal", 4), Err(LoadFault::Failed)));
    fs::remove_file(&rt, "journal")?;
    Ok(())
}

/// A journal's file is one disk's at a time: another one is refused, and gets it once the first gives it up; the first may choose it anew.
#[test]
fn a_chosen_file_is_locked(rt: HostRuntime) -> Result<(), Fail> {
    let alloc: Global = rt.alloc();
    let mut shelf = FileShelf::new(&rt);
    assert!(rt; shelf.store(alloc, "locked", b"header").is_ok());
    let mut first = FileDisk::new(&rt);
    assert!(rt; first.choose("locked", Access::Own).is_ok());
    assert!(rt; first.choose("locked", Access::Own).is_ok());
    let mut second = FileDisk::new(&rt);
    assert!(rt; second.choose("locked", Access::Own) == Err(Failed));
    assert!(rt; second.faults() == 1 && first.faults() == 0);
    let mut buffer = [0; 6];
    assert!(rt; second.read(0, &mut buffer) == Err(Failed));
    drop(first);
    assert!(rt; second.choose("locked", Access::Own).is_ok());
    assert!(rt; second.read(0, &mut buffer) == Ok(6));
    fs::remove_file(&rt, "locked")?;
    Ok(())
}

/// A store puts a new file in the old one's place, which its owner alone may read: whoever has the old one open keeps that, and nothing is
/// left beside it. Where a store fails the old file stays.
#[test]
fn a_store_replaces_the_file(rt: HostRuntime) -> Result<(), Fail> {
    let alloc: Global = rt.alloc();
    fs::write(&rt, "replaced", b"old and long")?;
    fs::write(&rt, "replaced.unfinished", b"of a run that was stopped")?;
    let mut disk = FileDisk::new(&rt);
    assert!(rt; disk.choose("replaced", Access::Own).is_ok());
    let mut shelf = FileShelf::new(&rt);
    assert!(rt; shelf.store(alloc, "replaced", b"new").is_ok());
    assert!(rt; fs::metadata(&rt, "replaced")?.permissions().mode() & 0o777 == 0o600);
    assert!(rt; !fs::exists(&rt, "replaced.unfinished")?);
    let bytes = shelf.load(alloc, "replaced", 12);
    assert!(rt; matches!(&bytes, Ok(bytes) if bytes.as_slice() == b"new".as_slice()));
    let mut buffer = [0; 12];
    assert!(rt; disk.read(0, &mut buffer) == Ok(12));
    assert!(rt; buffer == *b"old and long");
    let mut other = FileDisk::new(&rt);
    assert!(rt; other.choose("replaced", Access::Own).is_ok());
    fs::create_dir(&rt, "replaced_folder")?;
    assert!(rt; shelf.store(alloc, "replaced_folder", b"bytes") == Err(PortFault::Failed));
    assert!(rt; fs::metadata(&rt, "replaced_folder")?.is_dir());
    assert!(rt; !fs::exists(&rt, "replaced_folder.unfinished")?);
    fs::remove_dir(&rt, "replaced_folder")?;
    fs::remove_file(&rt, "replaced")?;
    Ok(())
}

/// No two seeds are the same.
#[test]
fn seeds_differ(rt: HostRuntime) -> Result<(), Fail> {
    assert!(rt; read_seed(&rt)? != read_seed(&rt)?);
    Ok(())
}

/// A read of a long piece of a file is no shorter than the file is.
#[test]
fn a_long_read_is_whole(rt: HostRuntime) -> Result<(), Fail> {
    let alloc: Global = rt.alloc();
    let mut bytes = Vec::new(alloc);
    bytes.resize(10_000, 7)?;
    let mut shelf = FileShelf::new(&rt);
    assert!(rt; shelf.store(alloc, "long", &bytes).is_ok());
    let mut disk = FileDisk::new(&rt);
    assert!(rt; disk.choose("long", Access::Own).is_ok());
    bytes.resize(10_001, 8)?;
    assert!(rt; disk.read(1, &mut bytes) == Ok(9_999));
    assert!(rt; bytes.get(9_998..) == Some([7, 7, 8].as_slice()));
    fs::remove_file(&rt, "long")?;
    Ok(())
}

/// An address of this machine at which nobody listens now.
fn free_address<R: Net>(rt: &R, alloc: Global) -> Result<String, Fail> {
    let listener = TcpListener::bind(rt, "127.0.0.1:0")?;
    let address = listener.local_addr()?;
    Ok(format!(in alloc; "{address}")?)
}

/// Both ends of a connection: of who called, and of who was called.
fn both_ends<R: Net + Clock + Copy>(
    alloc: Global,
    door: &mut TcpDoor<R>,
    address: &str,
) -> Result<(TcpLink<R::Stream, R>, TcpLink<R::Stream, R>), Fail>
    ensures { IfOk result (λ ends. IsFreshLink (⟦<TcpLink<R::Stream, R> as Link>⟧.state ends.0)
        × IsFreshLink (⟦<TcpLink<R::Stream, R> as Link>⟧.state ends.1)) }
{
    let Ok(caller) = door.connect(alloc, address, SECONDS) else {
        return Err(Fail::new("nobody answers"));
    };
    let Ok(Some(called)) = door.next(alloc) else {
        return Err(Fail::new("nobody called"));
    };
    Ok((caller, called))
}

/// Both ends of a connection at an address of this machine.
fn connected<R: Net + Clock + Copy>(
    rt: R,
    alloc: Global,
) -> Result<(TcpLink<R::Stream, R>, TcpLink<R::Stream, R>), Fail>
    ensures { IfOk result (λ ends. IsFreshLink (⟦<TcpLink<R::Stream, R> as Link>⟧.state ends.0)
        × IsFreshLink (⟦<TcpLink<R::Stream, R> as Link>⟧.state ends.1)) }
{
    let address = free_address(&rt, alloc)?;
    let mut door = TcpDoor::new(rt);
    if door.listen(alloc, &address, SECONDS, 1).is_err() {
        return Err(Fail::new("nobody may listen"));
    }
    let ends = both_ends(alloc, &mut door, &address)?;
    Ok(ends)
}

/// What one end sends the other receives, and then its end, also where it ended over bytes that it had not read.
#[test]
fn a_link_carries_bytes_and_its_end(rt: HostRuntime) -> Result<(), Fail> {
    let alloc: Global = rt.alloc();
    let (mut caller, mut called) = connected(&rt, alloc)?;
    let mut buffer = [b'.'; 8];
    assert!(rt; caller.send(alloc, b"hello").is_ok());
    assert!(rt; called.receive(alloc, &mut buffer) == Ok(5));
    assert!(rt; buffer == *b"hello...");
    assert!(rt; caller.send(alloc, b"unread").is_ok());
    assert!(rt; called.send(alloc, b"verdict").is_ok());
    called.end();
    assert!(rt; caller.receive(alloc, &mut buffer) == Ok(7));
    assert!(rt; buffer == *b"verdict.");
    assert!(rt; caller.receive(alloc, &mut buffer) == Ok(0));
    caller.end();
    assert!(rt; called.faults() == 0 && caller.faults() == 0);
    Ok(())
}

/// A link that is closed over unread bytes, and not ended, resets the connection: a failed receive, which is counted.
#[test]
fn a_reset_is_a_fault(rt: HostRuntime) -> Result<(), Fail> {
    let alloc: Global = rt.alloc();
    let (mut caller, called) = connected(&rt, alloc)?;
    assert!(rt; caller.send(alloc, b"unread").is_ok());
    drop(called);
    let mut buffer = [0; 8];
    assert!(rt; caller.receive(alloc, &mut buffer) == Err(PortFault::Failed));
    assert!(rt; caller.faults() == 1);
    Ok(())
}

/// A peer that is silent for as long as the patience is a fault.
#[test]
fn a_silent_peer_is_a_fault(rt: HostRuntime) -> Result<(), Fail> {
    let alloc: Global = rt.alloc();
    let (mut caller, mut called) = connected(&rt, alloc)?;
    let mut buffer = [0; 8];
    assert!(rt; called.receive(alloc, &mut buffer) == Err(PortFault::Failed));
    assert!(rt; caller.receive(alloc, &mut buffer) == Err(PortFault::Failed));
    assert!(rt; called.faults() == 1 && caller.faults() == 1);
    Ok(())
}

/// A peer that was called has as long in all until this end first sends; from then on, as one that calls, for each piece.
#[test]
fn a_slow_peer_is_a_fault_before_the_first_send(rt: HostRuntime) -> Result<(), Fail> {
    let alloc: Global = rt.alloc();
    let (mut caller, mut called) = connected(&rt, alloc)?;
    let mut buffer = [0; 8];
    assert!(rt; caller.send(alloc, b"h").is_ok());
    assert!(rt; called.receive(alloc, &mut buffer) == Ok(1));
    assert!(rt; called.send(alloc, b"g").is_ok());
    pause(&rt);
    assert!(rt; caller.send(alloc, b"c").is_ok());
    pause(&rt);
    assert!(rt; called.receive(alloc, &mut buffer) == Ok(1));
    let (mut caller, mut called) = connected(&rt, alloc)?;
    assert!(rt; caller.send(alloc, b"h").is_ok());
    pause(&rt);
    assert!(rt; called.receive(alloc, &mut buffer) == Ok(1));
    pause(&rt);
    assert!(rt; caller.send(alloc, b"e").is_ok());
    assert!(rt; called.receive(alloc, &mut buffer) == Err(PortFault::Failed));
    Ok(())
}

/// A door gives as many links as it listens for, and then listens no more; it refuses where nobody listens or somebody does already.
#[test]
fn a_door_gives_its_links(rt: HostRuntime) -> Result<(), Fail> {
    let alloc: Global = rt.alloc();
    let address = free_address(&rt, alloc)?;
    let mut door = TcpDoor::new(&rt);
    assert!(rt; matches!(door.next(alloc), Ok(None)));
    assert!(rt;
        matches!(
            door.connect(alloc, &address, SECONDS),
            Err(PortFault::Failed)
        )
    );
    assert!(rt; door.listen(alloc, &address, SECONDS, 2).is_ok());
    let _first = both_ends(alloc, &mut door, &address)?;
    let _second = both_ends(alloc, &mut door, &address)?;
    assert!(rt; matches!(door.next(alloc), Ok(None)));
    assert!(rt;
        matches!(
            door.connect(alloc, &address, SECONDS),
            Err(PortFault::Failed)
        )
    );
    let listener = TcpListener::bind(&rt, "127.0.0.1:0")?;
    let taken = format!(in alloc; "{}", listener.local_addr()?)?;
    let mut other = TcpDoor::new(&rt);
    assert!(rt; other.listen(alloc, &taken, SECONDS, 1) == Err(PortFault::Failed));
    assert!(rt; other.listen(alloc, "no address", SECONDS, 1) == Err(PortFault::Failed));
    Ok(())
}
