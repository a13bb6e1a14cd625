//! Files and memory as stores.

use edge_io::{Crash, Got, Opened, PlanStore, Store, Wrote};
use std::fs::{File, Files};
use std::os::unix::fs::PermissionsExt;
use std::process::Abort;
use std::test::Fail;
use std::{fs, thread};
use tcp_edge::FileStore;

/// How many names a test tries for its folder.
const NAMES: u32 = 1_000;

/// A folder that nothing else uses.
fn new_folder<R: Files + Alloc + Abort>(rt: &R) -> Result<String<R::A>, Fail> {
    for number in 0..NAMES {
        let name = format!(in rt.alloc(); "/tmp/file-store-{number}")?;
        if fs::create_dir(rt, name.as_str()).is_ok() {
            return Ok(name);
        }
    }
    panic!(rt; "no name is free")
}

/// The next bytes of a store are these.
fn must_give<S: Store>(rt: &impl Abort, store: &mut S, bytes: &[u8]) {
    let mut buf = [0u8; 8];
    match store.read(&mut buf) {
        Got::Bytes(count) => assert_eq!(rt; buf[..count], *bytes),
        Got::End => panic!(rt; "an end"),
        Got::Failed => panic!(rt; "a fault"),
    }
}

#[test]
fn a_file_keeps_what_was_appended_for_the_next_store(rt: HostRuntime) -> Result<(), Fail> {
    let folder = new_folder(&rt)?;
    let name = format!(in rt.alloc(); "{folder}/room")?;
    let mut first = FileStore::new(&rt, rt.alloc());
    let mut second = FileStore::new(&rt, rt.alloc());
    let mut buf = [0u8; 8];
    // Nothing is open yet.
    assert_eq!(rt; first.read(&mut buf), Got::Failed);
    assert_eq!(rt; first.append(b"lost"), Wrote::Failed);
    assert!(rt; !first.cut(0));
    assert_eq!(rt; first.open(&name), Opened::Open);
    assert_eq!(rt; first.read(&mut buf), Got::End);
    assert_eq!(rt; first.append(b"hello "), Wrote::All);
    let (wrote, opened) = thread::join(&rt, || first.append(b"world"), || second.open(&name));
    assert_eq!(rt; wrote, Wrote::All);
    assert_eq!(rt; opened, Opened::Failed);
    must_give(&rt, &mut first, b"hello wo");
    assert_eq!(rt; first.append(b"!"), Wrote::All);
    must_give(&rt, &mut first, b"rld!");
    drop(first);
    // It is this store's now.
    assert_eq!(rt; second.open(&name), Opened::Open);
    must_give(&rt, &mut second, b"hello wo");
    must_give(&rt, &mut second, b"rld!");
    assert_eq!(rt; second.read(&mut buf), Got::End);
    assert!(rt; second.cut(5));
    assert!(rt; second.cut(9));
    assert_eq!(rt; second.append(b"."), Wrote::All);
    // A folder is no file, and closes what was open.
    assert_eq!(rt; second.open(&folder), Opened::Failed);
    assert_eq!(rt; second.append(b"lost"), Wrote::Failed);
    assert_eq!(rt;
        fs::read(&rt, name.as_str())?.as_slice(),
        b"hello.".as_slice()
    );
    assert_eq!(rt;
        fs::metadata(&rt, name.as_str())?.permissions().mode() & 0o777,
        0o600
    );
    fs::remove_file(&rt, name.as_str())?;
    fs::remove_dir(&rt, folder.as_str())?;
    Ok(())
}

#[test]
fn a_crash_keeps_a_front_of_its_append(rt: HostRuntime) -> Result<(), Fail> {
    let alloc = rt.alloc();
    let bytes = Vec::from_array(alloc, *b"ab")?;
    let fails = Vec::from_array(alloc, [2])?;
    let crash = Some(Crash {
        append: 2,
        bytes: 2,
    });
    let mut store = PlanStore::new(alloc, bytes, fails, crash);
    let mut buf = [0u8; 8];
    assert_eq!(rt; store.open("room"), Opened::Open);
    assert_eq!(rt; store.read(&mut buf), Got::Failed);
    must_give(&rt, &mut store, b"ab");
    assert!(rt; store.cut(1));
    assert_eq!(rt; store.append(b"c"), Wrote::All);
    assert_eq!(rt; store.bytes(), b"ac".as_slice());
    let copy = store.clone()?;
    assert_eq!(rt; store.append(b"def"), Wrote::Failed);
    assert_eq!(rt; store.bytes(), b"acde".as_slice());
    assert_eq!(rt; store.append(b"g"), Wrote::Failed);
    assert!(rt; !store.cut(0));
    assert_eq!(rt; store.open("room"), Opened::Failed);
    assert_eq!(rt; store.read(&mut buf), Got::Failed);
    assert_eq!(rt; store.bytes(), b"acde".as_slice());
    assert_eq!(rt; copy.bytes(), b"ac".as_slice());
    Ok(())
}
