//! Files, streams and memory.
use rb_edge::{CountSink, FileShelf, LoadError, MemShelf, MemSink, StdSink, load, write_all};
use std::test::Fail;
use std::{fs, io};

#[test]
fn files_of_the_system_are_read_whole(rt: HostRuntime) -> Result<(), Fail> {
    fs::write(&rt, "a.txt", "some text")?;
    let mut shelf = FileShelf::new(&rt);
    let bytes = load(rt.alloc(), &mut shelf, "a.txt", 9)?;
    assert_eq!(rt; bytes.as_slice(), b"some text".as_slice());
    let shorter = load(rt.alloc(), &mut shelf, "a.txt", 8).err();
    assert_eq!(rt; shorter, Some(LoadError::TooLong));
    let absent = load(rt.alloc(), &mut shelf, "b.txt", 9).err();
    assert_eq!(rt; absent, Some(LoadError::Failed));
    Ok(())
}

// Longer than many reads of the system, and no page of it like another.
const LONG: u32 = 100_003;

#[test]
fn a_file_of_many_reads_is_read_whole(rt: HostRuntime) -> Result<(), Fail> {
    let mut long = Vec::new(rt.alloc());
    for at in 0..LONG {
        long.push((at % 251) as u8)?;
    }
    fs::write(&rt, "long.txt", long.as_slice())?;
    let mut shelf = FileShelf::new(&rt);
    let bytes = load(rt.alloc(), &mut shelf, "long.txt", LONG)?;
    assert_eq!(rt; bytes.as_slice(), long.as_slice());
    Ok(())
}

// A stream that takes a byte at a time.
#[derive(Drop)]
struct Slow<'b> {
    bytes: &'b mut Vec<u8>,
}

impl<'b> io::Write for Slow<'b> {
    fn write(&mut self, piece: &[u8]) -> io::Result<usize> {
        self.bytes.write(&piece[..piece.len().min(1)])
    }

    fn flush(&mut self) -> io::Result<()> {
        Ok(())
    }
}

#[test]
fn a_slow_stream_takes_all(rt: HostRuntime) -> Result<(), Fail> {
    let mut bytes = Vec::new(rt.alloc());
    write_all(&mut StdSink::new(Slow { bytes: &mut bytes }), b"some text")?;
    assert_eq!(rt; bytes.as_slice(), b"some text".as_slice());
    Ok(())
}

#[test]
fn streams_take_all(rt: HostRuntime) -> Result<(), Fail> {
    let mut bytes = Vec::new(rt.alloc());
    write_all(&mut StdSink::new(&mut bytes), b"some text")?;
    assert_eq!(rt; bytes.as_slice(), b"some text".as_slice());
    Ok(())
}

#[test]
fn files_in_memory_are_read_whole(rt: HostRuntime) -> Result<(), Fail> {
    let mut shelf = MemShelf::new(rt.alloc(), &[0])?;
    shelf.put("a.txt", b"some text")?;
    let chosen = load(rt.alloc(), &mut shelf, "a.txt", 9).err();
    assert_eq!(rt; chosen, Some(LoadError::Failed));
    let bytes = load(rt.alloc(), &mut shelf, "a.txt", 9)?;
    assert_eq!(rt; bytes.as_slice(), b"some text".as_slice());
    Ok(())
}

#[test]
fn sinks_in_memory_take_what_has_room(rt: HostRuntime) -> Result<(), Fail> {
    let mut sink = MemSink::new(rt.alloc(), 2, 9, &[5])?;
    write_all(&mut sink, b"some text")?;
    assert!(rt; write_all(&mut sink, b"!").is_err());
    assert_eq!(rt; sink.bytes(), b"some text".as_slice());
    Ok(())
}

#[test]
fn sinks_that_count_take_all(rt: HostRuntime) -> Result<(), Fail> {
    let mut sink = CountSink::new();
    write_all(&mut sink, b"some text")?;
    assert_eq!(rt; sink.total(), 9);
    Ok(())
}
