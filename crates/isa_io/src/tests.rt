use crate::{HostFiles, MemoryFiles, MemorySink, ReadFail, StreamSink, read_file, write_all};
use std::alloc::{AllocError, Global};
use std::fs;
use std::test::Fail;

const FOLDER: &str = "isa_io_test";

const PATH: &str = "isa_io_test/written";

fn numbers(alloc: Global, number: u64) -> Result<Vec<u64>, AllocError> {
    let mut numbers = Vec::new(alloc);
    numbers.push(number)?;
    Ok(numbers)
}

#[test]
fn writes_a_prefix(rt: HostRuntime) -> Result<(), AllocError> {
    let mut sink = MemorySink::new(rt.alloc(), 16, 2, numbers(rt.alloc(), 2)?)?;
    assert!(rt; write_all(&mut sink, b"abcde").is_err());
    assert!(rt; sink.written() == b"ab".as_slice());
    Ok(())
}

#[test]
fn reads_up_to_the_limit(rt: HostRuntime) -> Result<(), AllocError> {
    let alloc = rt.alloc();
    for limit in 2..4usize {
        let mut texts = Vec::new(alloc);
        texts.push((
            String::from_str(alloc, "a")?,
            Vec::from_slice(alloc, b"abc")?,
        ))?;
        let mut files = MemoryFiles::new(texts, 1, Vec::new(alloc));
        match read_file(alloc, &mut files, "a", limit) {
            Ok(bytes) => assert!(rt; limit == 3 && bytes.as_slice() == b"abc".as_slice()),
            Err(fail) => assert!(rt; limit == 2 && fail == ReadFail::TooLong),
        }
    }
    Ok(())
}

/// What a real stream took is read back from a real file. A folder and a missing file can't be read.
#[test]
fn adapts_real_files_and_streams(rt: HostRuntime) -> Result<(), Fail> {
    let alloc = rt.alloc();
    let _ = fs::remove_dir_all(&rt, FOLDER);
    fs::create_dir(&rt, FOLDER)?;
    let mut sink = StreamSink::new(fs::create(&rt, PATH)?);
    assert!(rt; write_all(&mut sink, b"one\ntwo").is_ok());
    let mut unwritable = StreamSink::new(fs::open(&rt, PATH)?);
    assert!(rt; write_all(&mut unwritable, b"three").is_err());
    for (name, limit, fails) in [
        (PATH, 7, None),
        (PATH, 6, Some(ReadFail::TooLong)),
        (FOLDER, 9, Some(ReadFail::Failed)),
        ("isa_io_test/missing", 9, Some(ReadFail::Failed)),
    ] {
        match read_file(alloc, &mut HostFiles::new(rt), name, limit) {
            Ok(bytes) => {
                assert!(rt; fails.is_none() && bytes.as_slice() == b"one\ntwo".as_slice());
            }
            Err(fail) => assert!(rt; fails == Some(fail)),
        }
    }
    fs::remove_dir_all(&rt, FOLDER)?;
    Ok(())
}
