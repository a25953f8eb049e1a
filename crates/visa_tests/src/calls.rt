// Files in memory, and calls of the program over them.
use std::alloc::{AllocError, Global};
use visa_cli::{Status, visa};
use visa_io::{List, MemFile, MemFiles, MemSink};

/// The bytes of a text.
pub fn list(alloc: Global, text: &str) -> Result<List<u8>, AllocError> {
    List::copy_of(alloc, text.as_bytes())
}

/// A task text: lines of the machine, of the code and of the rest.
pub fn task_text(
    alloc: Global,
    machine: &str,
    code: &str,
    rest: &str,
) -> Result<String, AllocError> {
    let mut text = String::from_str(
        alloc,
        "visa-task 1\norder big\ncore 1 8 4 16\nmemory 10000 10000 0 0\n",
    )?;
    text.push_str(machine)?;
    text.push_str(code)?;
    text.push_str("stack 7fff0000\n")?;
    text.push_str(rest)?;
    Ok(text)
}

/// A task text `t`, a jobs text `j` and an image `prog`; no file is behind `missing`.
pub fn files(
    alloc: Global,
    task: &str,
    jobs: &str,
    image: &[u8],
    fails: &[u64],
) -> Result<MemFiles, AllocError> {
    let mut held = List::new(alloc);
    for (name, bytes) in [
        ("t", task.as_bytes()),
        ("j", jobs.as_bytes()),
        ("prog", image),
    ] {
        if bytes != b"missing".as_slice() {
            held.push(MemFile {
                name: list(alloc, name)?,
                bytes: List::copy_of(alloc, bytes)?,
            })?;
        }
    }
    Ok(MemFiles::new(held, List::copy_of(alloc, fails)?))
}

/// Calls the program with words that stand between spaces.
pub fn call(
    alloc: Global,
    words: &str,
    files: &mut MemFiles,
    sink: &mut MemSink,
) -> Result<Status, AllocError> {
    let mut list = Vec::new(alloc);
    for word in words.split(' ') {
        list.push(String::from_str(alloc, word)?)?;
    }
    Ok(visa(alloc, list.as_slice(), files, sink))
}
