//! Streams and files as sources and sinks: their bytes, and faults in mid-stream.

use crate::files::words::push_read;
use std::alloc::{AllocError, AllocGlobal, Global};
use std::fs;
use std::io::{BufWriter, Read};
use xf_io::{FileSource, ReaderSource, Sink, Source, WriterSink, write_all};

const READ: &str = "xf_test_devices_read";

const WRITTEN: &str = "xf_test_devices_written";

/// What so many reads of two bytes give.
fn told(alloc: Global, source: &mut impl Source, reads: u8) -> Result<String, AllocError> {
    let mut words = String::new(alloc);
    let mut into = [b'-'; 2];
    for _ in 0..reads {
        let read = source.read(&mut into);
        push_read(alloc, &mut words, read, &into)?;
    }
    Ok(words)
}

#[test]
fn a_reader_gives_its_bytes_until_it_fails(rt: HostRuntime) {
    let broken = fs::open(&rt, "/proc/self/mem").expect(&rt, "a file");
    let mut source = ReaderSource::new(b"abc".as_slice().chain(broken));
    let words = told(rt.alloc(), &mut source, 4).expect(&rt, "room");
    assert_eq!(rt; words.as_str(), "2:ab 1:cb failed failed ");
}

#[test]
fn a_file_gives_its_bytes_and_each_error(rt: HostRuntime) {
    // a file, how many reads, and what they give; behind the first no file, a folder, and a file that opens and gives no byte
    const CASES: [(&str, u8, &str); 4] = [
        (READ, 3, "2:ab 1:cb 0:cb "),
        ("xf_test_devices_none", 2, "failed failed "),
        (".", 2, "failed failed "),
        ("/proc/self/mem", 2, "failed failed "),
    ];
    fs::write(&rt, READ, b"abc").expect(&rt, READ);
    for (path, reads, want) in CASES {
        let mut source = FileSource::new(&rt, path);
        let words = told(rt.alloc(), &mut source, reads).expect(&rt, "room");
        assert_eq!(rt; words.as_str(), want, "{path}");
    }
    let _ = fs::remove_file(&rt, READ);
}

#[test]
fn a_writer_takes_its_bytes(rt: HostRuntime) {
    let file = fs::create(&rt, WRITTEN).expect(&rt, WRITTEN);
    let mut sink = WriterSink::new(BufWriter::new(rt.alloc(), file).expect(&rt, "room"));
    assert!(rt; write_all(&mut sink, b"abc").is_ok());
    assert!(rt; holds(&rt, WRITTEN, b""));
    assert!(rt; sink.flush().is_ok());
    assert!(rt; holds(&rt, WRITTEN, b"abc"));
    assert!(rt; write_all(&mut sink, b"de").is_ok());
    assert!(rt; sink.flush().is_ok());
    assert!(rt; holds(&rt, WRITTEN, b"abcde"));
    let _ = fs::remove_file(&rt, WRITTEN);
}

/// Whether a file has these bytes.
fn holds(rt: &HostRuntime, path: &str, bytes: &[u8]) -> bool {
    match fs::read(rt, path) {
        Ok(held) => held.as_slice() == bytes,
        Err(_) => false,
    }
}

// A file that takes no byte: that is told at once, and where the bytes are held back, at the flush.
#[test]
fn a_writer_tells_each_error(rt: HostRuntime) {
    let file = fs::create(&rt, "/dev/full").expect(&rt, "/dev/full");
    let mut full = WriterSink::new(file);
    assert!(rt; full.write(b"a").is_err());
    let file = fs::create(&rt, "/dev/full").expect(&rt, "/dev/full");
    let mut late = WriterSink::new(BufWriter::new(rt.alloc(), file).expect(&rt, "room"));
    assert_eq!(rt; late.write(b"a"), Ok(1));
    assert!(rt; late.flush().is_err());
}
