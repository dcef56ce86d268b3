use std::alloc::{AllocError, Global};
use xf_io::{Bytes, Line, Lines, MemorySink, MemorySource, write_all};

// The lines that a source gives, each in brackets, and how they end.
fn given(alloc: Global, mut source: MemorySource) -> Result<String, AllocError> {
    let mut lines = Lines::new();
    let mut text = String::new(alloc);
    for _ in 0..9 {
        let line = lines.next(alloc, &mut source);
        push_line(&mut text, &line)?;
        if !matches!(line, Line::Text(_) | Line::TooLong) {
            break;
        }
    }
    Ok(text)
}

fn push_line(text: &mut String, line: &Line) -> Result<(), AllocError> {
    match line {
        Line::Text(line) => {
            text.push_str("[")?;
            text.push_str(str::from_utf8(line.as_slice()).unwrap_or("no text"))?;
            text.push_str("]")?;
        }
        Line::TooLong => text.push_str("long ")?,
        Line::End => text.push_str("end")?,
        Line::ReadFault => text.push_str("fault")?,
        Line::TooMuch => text.push_str("much")?,
        Line::Memory => text.push_str("memory")?,
    }
    Ok(())
}

fn given_at_most(
    alloc: Global,
    bytes: &str,
    most: usize,
    fails: &[u64],
) -> Result<String, AllocError> {
    let mut source = MemorySource::new(bytes.as_bytes().to_vec(alloc)?, fails.to_vec(alloc)?);
    source.read_at_most(most);
    given(alloc, source)
}

#[test]
fn a_stream_is_cut_into_lines(rt: HostRuntime) {
    // the bytes, most bytes of a read, reads that fail, what is given
    const CASES: [(&str, usize, &[u64], &str); 8] = [
        ("", 9, &[], "end"),
        ("\n", 9, &[], "[]end"),
        ("ab\ncd", 9, &[], "[ab][cd]end"),
        ("ab\ncd\n", 1, &[], "[ab][cd]end"),
        ("ab\ncd\n", 4, &[1], "[ab]fault"),
        ("ab\ncd\n", 9, &[1], "[ab][cd]fault"),
        ("ab\ncd", 9, &[2], "[ab][cd]end"),
        ("ab\n", 9, &[0], "fault"),
    ];
    for (bytes, most, fails, want) in CASES {
        let text = given_at_most(rt.alloc(), bytes, most, fails).expect(&rt, "room");
        assert_gives!(rt; (bytes, most, text.as_str()), (bytes, most, want));
    }
}

#[test]
fn a_line_has_at_most_65536_bytes(rt: HostRuntime) {
    let mut bytes = vec![in rt.alloc(); b'a'; 65_537].expect(&rt, "room");
    bytes.extend_from_slice(b"\nb").expect(&rt, "room");
    let source = MemorySource::new(bytes, Vec::new(rt.alloc()));
    let text = given(rt.alloc(), source).expect(&rt, "room");
    assert_gives!(rt; text.as_str(), "long [b]end");
    let bytes = vec![in rt.alloc(); b'a'; 65_536].expect(&rt, "room");
    let source = MemorySource::new(bytes, Vec::new(rt.alloc()));
    let text = given(rt.alloc(), source).expect(&rt, "room");
    assert_gives!(rt; text.len(), 65_541);
}

// Whether a sink takes all of four bytes, and what it takes.
fn taken(
    alloc: Global,
    room: usize,
    most: usize,
    fails: &[u64],
) -> Result<(bool, Bytes), AllocError> {
    let mut sink = MemorySink::new(alloc, room, fails.to_vec(alloc)?)?;
    sink.take_at_most(most);
    let all = write_all(&mut sink, b"abcd").is_ok();
    Ok((all, sink.into_bytes()))
}

#[test]
fn a_sink_takes_a_front_at_a_fault(rt: HostRuntime) {
    // room, most bytes of a write, writes that fail, whether all is taken, what is taken
    const CASES: [(usize, usize, &[u64], bool, &str); 5] = [
        (9, 9, &[], true, "abcd"),
        (9, 1, &[], true, "abcd"),
        (9, 0, &[], false, ""),
        (9, 1, &[2], false, "ab"),
        (3, 2, &[], false, "ab"),
    ];
    for (room, most, fails, all, want) in CASES {
        let (takes_all, bytes) = taken(rt.alloc(), room, most, fails).expect(&rt, "room");
        assert_gives!(rt; (most, takes_all), (most, all));
        assert_gives!(rt; (most, bytes.as_slice()), (most, want.as_bytes()));
    }
}
