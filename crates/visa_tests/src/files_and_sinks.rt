// What no clause says: that calls succeed, and the adapters over the system.
use std::alloc::{AllocError, Global};
use std::fmt::Display;
use std::test::Fail;
use std::{fs, io};
use visa_io::{
    FileFault, Files, HostFiles, HostSink, List, MemFile, MemFiles, MemSink, PutFail, Reserve,
    Sink, SinkFailed, Symbols,
};

fn text(alloc: Global, text: &str) -> Result<List<u8>, AllocError> {
    List::copy_of(alloc, text.as_bytes())
}

#[test]
fn files_in_memory_fail_at_the_named_call(rt: HostRuntime) -> Result<(), Fail> {
    let alloc = rt.alloc();
    let mut held = List::new(alloc);
    held.push(MemFile {
        name: text(alloc, "a")?,
        bytes: text(alloc, "one")?,
    })?;
    held.push(MemFile {
        name: text(alloc, "a")?,
        bytes: text(alloc, "two")?,
    })?;
    let mut files = MemFiles::new(held, List::copy_of(alloc, &[2])?);
    let first = files.read(alloc, "a", 3);
    assert!(rt; matches!(&first, Ok(bytes) if bytes.as_slice() == b"one".as_slice()));
    assert!(rt; matches!(files.read(alloc, "a", 3), Err(FileFault::Failed)));
    assert!(rt; matches!(files.read(alloc, "a", 2), Err(FileFault::Long)));
    assert!(rt; matches!(files.read(alloc, "b", 3), Err(FileFault::Failed)));
    Ok(())
}

#[test]
fn a_sink_in_memory_keeps_a_prefix(rt: HostRuntime) -> Result<(), Fail> {
    let alloc = rt.alloc();
    let fails = List::copy_of(alloc, &[PutFail { call: 2, kept: 1 }])?;
    let mut sink = MemSink::new(alloc, 4, fails)?;
    assert_eq!(rt; sink.put(b"ab"), Ok(()));
    assert_eq!(rt; sink.put(b"cd"), Err(SinkFailed));
    assert_eq!(rt; sink.put(b"ef"), Err(SinkFailed));
    assert_eq!(rt; sink.put(b"g"), Ok(()));
    assert_eq!(rt; sink.bytes(), b"abcg".as_slice());
    let mut reserve = Reserve::new(alloc, 1)?;
    reserve.put(7u8);
    assert_eq!(rt; reserve.into_list().as_slice(), [7].as_slice());
    Ok(())
}

#[test]
fn files_of_the_system_are_read(rt: HostRuntime) -> Result<(), Fail> {
    let alloc = rt.alloc();
    let name = "visa_io_test.tmp";
    let content = vec![in alloc; 7u8; 20000]?;
    fs::write(&rt, name, content.as_slice())?;
    let mut files = HostFiles::new(&rt);
    let whole = files.read(alloc, name, 20000);
    let long = files.read(alloc, name, 19999);
    fs::remove_file(&rt, name)?;
    let gone = files.read(alloc, name, 20000);
    assert!(rt; matches!(&whole, Ok(bytes) if bytes.as_slice() == content.as_slice()));
    assert!(rt; matches!(long, Err(FileFault::Long)));
    assert!(rt; matches!(gone, Err(FileFault::Failed)));
    Ok(())
}

#[test]
fn a_name_with_spaces_and_an_empty_file_are_read(rt: HostRuntime) -> Result<(), Fail> {
    let alloc = rt.alloc();
    let name = " visa_io test.tmp ";
    fs::write(&rt, name, b"")?;
    let mut files = HostFiles::new(&rt);
    let empty = files.read(alloc, name, 0);
    fs::write(&rt, name, b"last\n\n")?;
    let feeds = files.read(alloc, name, 6);
    fs::remove_file(&rt, name)?;
    assert!(rt; matches!(&empty, Ok(bytes) if bytes.len() == 0));
    assert!(rt; matches!(&feeds, Ok(bytes) if bytes.as_slice() == b"last\n\n".as_slice()));
    Ok(())
}

#[test]
fn a_name_is_added_once(rt: HostRuntime) -> Result<(), Fail> {
    let alloc = rt.alloc();
    let mut symbols = Symbols::new(alloc);
    assert!(rt; symbols.add(b"main", 1)?);
    assert!(rt; !symbols.add(b"main", 2)?);
    assert_eq!(rt; symbols.get(b"main"), Some(1));
    assert_eq!(rt; symbols.len(), 1);
    let mut keyed = Symbols::keyed(alloc, b"key");
    assert!(rt; keyed.add(b"main", 3)?);
    assert_eq!(rt; keyed.get(b"main"), Some(3));
    Ok(())
}

// An output that takes two bytes at a time, or is closed.
#[derive(Drop)]
struct Narrow {
    open: bool,
}

impl Print for Narrow {
    fn print<D: Display + Drop>(&self, _value: D) -> io::Result<()> {
        Ok(())
    }

    fn println<D: Display + Drop>(&self, _value: D) -> io::Result<()> {
        Ok(())
    }

    fn write_all(&self, _bytes: &[u8]) -> io::Result<()> {
        Ok(())
    }

    fn write_some(&self, bytes: &[u8]) -> io::Result<usize> {
        Ok(if self.open { bytes.len().min(2) } else { 0 })
    }
}

#[test]
fn a_write_that_takes_nothing_is_a_fault(rt: HostRuntime) {
    let open = Narrow { open: true };
    let closed = Narrow { open: false };
    assert_eq!(rt; HostSink::new(io::writer(&open)).put(b"abcde"), Ok(()));
    assert_eq!(rt; HostSink::new(io::writer(&closed)).put(b""), Ok(()));
    assert_eq!(rt;
        HostSink::new(io::writer(&closed)).put(b"a"),
        Err(SinkFailed)
    );
}
