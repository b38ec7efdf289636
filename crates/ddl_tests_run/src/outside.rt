use ddl_outside::{
    Files, Filled, HostFiles, HostOut, Length, MemFiles, MemSink, Piece, Sink, Took, Whole,
    Written, fill, read_whole, write_whole,
};
use std::fs;
use std::test::Fail;

/// The last file under a name counts, zeros are there, and the call that is told fails.
#[test]
fn files_in_memory(rt: HostRuntime) -> Result<(), Fail> {
    let alloc = rt.alloc();
    let mut files = MemFiles::new(alloc);
    files.add("a", b"old".to_vec(alloc)?)?;
    files.add("a", b"newer".to_vec(alloc)?)?;
    files.add_zeros("z", 1 << 40)?;
    files.fail_at(3)?;
    assert!(rt; files.length("b") == Length::Absent);
    assert!(rt; files.length("z") == Length::Bytes(1 << 40));
    assert!(rt; files.length("a") == Length::Failed);
    let mut bytes = [1u8; 8];
    if let Length::Bytes(5) = files.length("a") {
        assert!(rt; files.read("a", 1, &mut bytes) == Piece::Got(4));
        assert!(rt; files.read("a", 5, &mut bytes) == Piece::End);
    }
    assert_eq!(rt; bytes.as_slice(), b"ewer\x01\x01\x01\x01".as_slice());
    Ok(())
}

/// A write takes what fits.
#[test]
fn sink_in_memory(rt: HostRuntime) -> Result<(), Fail> {
    let mut out = MemSink::new(rt.alloc(), 7)?;
    out.fail_at(2)?;
    assert!(rt; out.write(b"abcd") == Took::Took(4));
    assert!(rt; out.write(b"efgh") == Took::Failed);
    assert!(rt; out.write(b"efgh") == Took::Took(3));
    assert!(rt; write_whole(&mut out, b"h") == Written::Failed);
    assert_eq!(rt; out.bytes(), b"abcdefg".as_slice());
    Ok(())
}

#[test]
fn reads_a_real_file(rt: HostRuntime) -> Result<(), Fail> {
    let alloc = rt.alloc();
    fs::write(&rt, "held", "hello")?;
    let mut files = HostFiles::new(alloc, &rt);
    assert!(rt; files.length("held") == Length::Bytes(5));
    assert!(rt; files.length("absent") == Length::Absent);
    let mut bytes = [0u8; 4];
    if let Length::Bytes(5) = files.length("held") {
        assert!(rt; fill(&mut files, "held", 1, &mut bytes) == Filled::Whole);
    }
    assert_eq!(rt; bytes.as_slice(), b"ello".as_slice());
    Ok(())
}

#[test]
fn writes_to_a_writer(rt: HostRuntime) -> Result<(), Fail> {
    let mut text = Vec::new(rt.alloc());
    let mut out = HostOut::new(&mut text);
    assert!(rt; out.write(b"line\n") == Took::Took(5));
    assert!(rt; write_whole(&mut out, b"rest") == Written::Whole);
    drop(out);
    assert_eq!(rt; text.as_slice(), b"line\nrest".as_slice());
    Ok(())
}

/// A file is read whole where it is no longer than asked for.
#[test]
fn a_whole_file(rt: HostRuntime) -> Result<(), Fail> {
    let alloc = rt.alloc();
    let mut files = MemFiles::new(alloc);
    files.add("A", b"abc".to_vec(alloc)?)?;
    let whole = read_whole(alloc, &mut files, "A", 3)?;
    assert!(rt; matches!(&whole, Whole::Bytes(bytes) if bytes.as_slice() == b"abc".as_slice()));
    let longer = read_whole(alloc, &mut files, "A", 2)?;
    assert!(rt; matches!(longer, Whole::Longer(3)));
    Ok(())
}
