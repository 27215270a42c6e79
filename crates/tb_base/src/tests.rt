use super::{
    Failed, LoadFault, MemSink, MemSource, MemStore, RealSink, RealStore, SaveFault, Sink, Source,
    Store, put_all,
};
use std::test::Fail;
use std::{env, fs, process};

#[test]
fn source_in_memory(rt: HostRuntime) -> Result<(), Fail> {
    let mut source = MemSource::new(rt.alloc(), b"abc", &[1])?;
    let mut buf = [0u8; 2];
    for want in [Ok(2), Err(Failed), Ok(1), Ok(0)] {
        assert_eq!(rt; source.take(&mut buf), want);
    }
    assert_eq!(rt; buf, [b'c', b'b']);
    Ok(())
}

#[test]
fn sink_in_memory(rt: HostRuntime) -> Result<(), Fail> {
    let mut sink = MemSink::new(rt.alloc(), 4, &[1])?;
    for want in [Ok(3), Err(Failed), Ok(1), Ok(0)] {
        assert_eq!(rt; sink.put(b"abc"), want);
    }
    assert_eq!(rt; sink.held(), b"abca".as_slice());

    let mut sink = MemSink::new(rt.alloc(), 8, &[])?;
    assert_eq!(rt; put_all(&mut sink, b"hello"), Ok(()));
    assert_eq!(rt; put_all(&mut sink, b"world"), Err(Failed));
    assert_eq!(rt; sink.held(), b"hellowor".as_slice());
    Ok(())
}

#[test]
fn store_in_memory(rt: HostRuntime) -> Result<(), Fail> {
    let alloc = rt.alloc();
    let mut store = MemStore::new(alloc, &[2, 4])?;
    for (name, bytes, want) in [
        ("a", "one", Ok(())),
        ("b", "", Ok(())),
        ("a", "two", Err(SaveFault::Failed)),
    ] {
        assert_eq!(rt; store.save(alloc, name, bytes.as_bytes()), want);
    }
    for (name, limit, want) in [
        ("a", 2, Some(LoadFault::TooLong)),
        ("a", 2, Some(LoadFault::Failed)),
        ("c", 2, Some(LoadFault::Failed)),
        ("b", 0, None),
        ("a", 3, None),
    ] {
        assert_eq!(rt; store.load(alloc, name, limit).err(), want);
    }
    assert_eq!(rt; store.get("a"), Some(b"one".as_slice()));
    assert_eq!(rt; store.get("c"), None);
    Ok(())
}

/// The name of a file of this process alone.
fn own_name(rt: &HostRuntime, last: &str) -> Result<String, Fail> {
    let folder = env::temp_dir(rt)?.into_string();
    let id = process::id(rt.process());
    Ok(format!(in rt.alloc(); "{folder}/tb_base_{id}_{last}")?)
}

#[test]
fn real_store(rt: HostRuntime) -> Result<(), Fail> {
    let alloc = rt.alloc();
    let name = own_name(&rt, "store")?;
    let name = name.as_str();
    let mut store = RealStore::new(alloc, &rt);
    assert_eq!(rt; store.load(alloc, name, 9).err(), Some(LoadFault::Failed));
    store.save(alloc, name, b"before")?;
    store.save(alloc, name, b"three")?;
    assert_eq!(rt; store.load(alloc, name, 5)?.as_slice(), b"three".as_slice());
    assert_eq!(rt; store.load(alloc, name, 4).err(), Some(LoadFault::TooLong));
    fs::remove_file(&rt, name)?;
    assert_eq!(rt;
        store.save(alloc, "/nowhere/to/be/found", b"x"),
        Err(SaveFault::Failed)
    );
    Ok(())
}

#[test]
fn a_real_save_keeps_other_files(rt: HostRuntime) -> Result<(), Fail> {
    let alloc = rt.alloc();
    let name = own_name(&rt, "kept")?;
    let name = name.as_str();
    let beside = format!(in alloc; "{name}.new0")?;
    let beside = beside.as_str();
    let mut store = RealStore::new(alloc, &rt);
    // A file of the user's stands under the first name beside it.
    fs::write(&rt, beside, b"own")?;
    store.save(alloc, name, b"bytes")?;
    assert_eq!(rt; fs::read(&rt, name)?.as_slice(), b"bytes".as_slice());
    assert_eq!(rt; fs::read(&rt, beside)?.as_slice(), b"own".as_slice());
    fs::remove_file(&rt, beside)?;
    fs::remove_file(&rt, name)?;
    Ok(())
}

#[test]
fn a_real_save_that_fails_keeps_the_old_file(rt: HostRuntime) -> Result<(), Fail> {
    let alloc = rt.alloc();
    // A name of 255 bytes, behind which no name beside it is allowed.
    let mut name = own_name(&rt, "")?;
    let folder = env::temp_dir(&rt)?.into_string();
    let length = name.len();
    for _ in length..folder.len() + 256 {
        name.push('x')?;
    }
    let name = name.as_str();
    fs::write(&rt, name, b"old")?;
    let mut store = RealStore::new(alloc, &rt);
    assert_eq!(rt; store.save(alloc, name, b"new"), Err(SaveFault::Failed));
    assert_eq!(rt; fs::read(&rt, name)?.as_slice(), b"old".as_slice());
    fs::remove_file(&rt, name)?;
    Ok(())
}

#[test]
fn real_sink(rt: HostRuntime) -> Result<(), Fail> {
    let name = own_name(&rt, "sink")?;
    let name = name.as_str();
    let mut sink = RealSink::new(fs::create(&rt, name)?);
    put_all(&mut sink, b"ab")?;
    put_all(&mut sink, b"c")?;
    assert_eq!(rt; fs::read(&rt, name)?.as_slice(), b"abc".as_slice());
    fs::remove_file(&rt, name)?;

    put_all(&mut RealSink::new(rt.stderr()), b"a line\n")?;
    let mut reader = RealSink::new(fs::open(&rt, "/dev/null")?);
    assert_eq!(rt; reader.put(b"x"), Err(Failed));
    Ok(())
}
