// Files and arguments for the programs that makers and service staff run.
#![tactic(auto)]

ghost use Rattle.std.specs.Prelude.{◌≡◌, ◌≤◌, length, take, IfOk, vec_len};
ghost use Rattle.std.specs.String.{string_bytes};

use std::alloc::Allocator;
use std::env::Env;
use std::fs::Files;
use std::io::{ErrorKind, Read, Write};
use std::{fs, io};

// The longest word that an argument may be.
const LONGEST_WORD: usize = 8;

// What an input has, `most` bytes at most: up to its end, or to where a read fails. An error is that memory ran out.
pub fn read_most<A: Allocator>(
    alloc: A,
    input: impl Read + Drop,
    most: usize,
) -> io::Result<Vec<u8, A>>
    ensures { IfOk result (λ bytes. vec_len bytes ≤ most) }
{
    let mut bytes = Vec::new(alloc);
    if let Err(error) = input.take(most as u64).read_to_end(&mut bytes) {
        if error.kind() == ErrorKind::OutOfMemory {
            return Err(error);
        }
    }
    // There are no more: `take` saw to it, which no contract of it says.
    bytes.truncate(most);
    Ok(bytes)
}

// The same of a file; one that can't be opened counts as empty.
pub fn contents<R: Files + Alloc>(rt: &R, path: &str, most: usize) -> io::Result<Vec<u8, R::A>>
    ensures { IfOk result (λ bytes. vec_len bytes ≤ most) }
{
    match fs::open(rt, path) {
        Ok(file) => read_most(rt.alloc(), file, most),
        Err(_) => Ok(Vec::new(rt.alloc())),
    }
}

// Reads until the buffer is full, the input ends or a read fails, and gives the number of bytes.
// Kept: this, `read` and `is_argument` can't fail; `read_most`, `contents` and `argument`, which allocate, can.
pub fn fill(input: &mut impl Read, buffer: &mut [u8]) -> usize
    ensures fits { result ≤ length buffer.new }
    ensures size { result ≡ length (take result buffer.new) }
{
    let mut size = 0;
    while size < buffer.len() {
        match input.read(&mut buffer[size..]) {
            Ok(0) | Err(_) => break,
            Ok(more) => size += more,
        }
    }
    size
}

// Reads a file, as far as the buffer goes, and gives the number of bytes; a file that can't be opened counts as empty.
pub fn read(rt: &impl Files, path: &str, buffer: &mut [u8]) -> usize
    ensures fits { result ≤ length buffer.new }
    ensures size { result ≡ length (take result buffer.new) }
{
    match fs::open(rt, path) {
        Ok(mut file) => fill(&mut file, buffer),
        Err(_) => 0,
    }
}

// The n-th argument; nothing where there is none, or where it is longer than any word or no text.
pub fn argument<R: Env + Alloc>(rt: &R, n: usize) -> io::Result<String<R::A>>
    ensures { IfOk result (λ word. length (string_bytes word) ≤ 8) }
{
    let mut given = [0u8; LONGEST_WORD];
    let size = rt.arg(n, &mut given).unwrap_or(0);
    let word = str::from_utf8(&given[..size]).unwrap_or("");
    Ok(String::from_str(rt.alloc(), word)?)
}

// Whether the n-th argument is this word, of at most eight letters.
pub fn is_argument(rt: &impl Env, n: usize, word: &[u8]) -> bool {
    let mut given = [0u8; LONGEST_WORD];
    let size = rt.arg(n, &mut given).unwrap_or(0);
    &given[..size] == word
}

// Writes a file anew and says so, or what stood in the way.
pub fn write<R: Files + Print + Eprint>(rt: &R, path: &str, bytes: &[u8]) -> io::Result<()> {
    match fs::create(rt, path) {
        Ok(mut file) => file.write_all(bytes)?,
        Err(error) => return eprintln!(rt; "{path}: {error}"),
    }
    let size = bytes.len();
    println!(rt; "wrote {path}: {size} bytes")
}

#[cfg(test)]
mod tests {
    use super::*;
    use std::env::FillError;
    use std::test::Fail;

    #[test]
    fn no_more_is_read_than_was_asked_for(rt: HostRuntime) -> Result<(), Fail> {
        let bytes = read_most(rt.alloc(), b"four".as_slice(), 3)?;
        assert_eq!(rt; bytes.as_slice(), b"fou".as_slice());
        let all = read_most(rt.alloc(), b"four".as_slice(), 5)?;
        assert_eq!(rt; all.as_slice(), b"four".as_slice());
        Ok(())
    }

    #[test]
    fn a_file_that_is_not_there_is_empty(rt: HostRuntime) -> Result<(), Fail> {
        let bytes = contents(&rt, "no such file", 3)?;
        assert_eq!(rt; bytes.len(), 0);
        Ok(())
    }

    // Someone who typed one word.
    #[derive(Drop)]
    struct Typed;

    impl Env for Typed {
        fn arg(&self, i: usize, buf: &mut [u8]) -> Result<usize, FillError> {
            if i != 1 || buf.len() < 5 {
                return Err(FillError::NotPresent);
            }
            buf[..5].copy_from_slice(b"write");
            Ok(5)
        }

        fn var(&self, _name: &str, _buf: &mut [u8]) -> Result<usize, FillError> {
            Err(FillError::NotPresent)
        }

        fn var_at(&self, _i: usize, _buf: &mut [u8]) -> Result<usize, FillError> {
            Err(FillError::NotPresent)
        }
    }

    #[test]
    fn a_word_is_read(rt: HostRuntime) -> Result<(), Fail> {
        let typed = (Typed, rt.alloc());
        assert_eq!(rt; argument(&typed, 1)?.as_str(), "write");
        assert_eq!(rt; argument(&typed, 2)?.as_str(), "");
        Ok(())
    }
}
