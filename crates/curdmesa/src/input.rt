//! The words of the call, and the input.

use crate::ending::Failure;
use base64::DecodeAllocError;
use base64::engine::general_purpose::STANDARD;
use std::alloc::Global;
use std::env::Env;
use std::io::{ErrorKind, Read};
use std::{env, fs, io};

/// The file name for standard input.
pub const STANDARD_INPUT: &str = "-";

/// Returns the arguments after the program's name.
///
/// # Errors
///
/// - `Words` if an argument isn't UTF-8.
/// - `Memory` if an allocation fails.
pub fn program_words(rt: &(impl Env + AllocGlobal)) -> Result<Vec<String>, Failure<'static>> {
    let given = match env::args(rt) {
        Ok(given) => given,
        Err(error) if error.kind() == ErrorKind::InvalidData => return Err(Failure::Words),
        Err(_) => return Err(Failure::Memory),
    };
    let mut words = Vec::new(rt.alloc());
    for word in given.skip(1) {
        words.push(word)?;
    }
    Ok(words)
}

// Reads a file, or standard input if the path is `-`.
fn read_bytes(rt: &HostRuntime, path: &str) -> io::Result<Vec<u8>> {
    if path != STANDARD_INPUT {
        return fs::read(rt, path);
    }
    let mut bytes = Vec::new(rt.alloc());
    rt.stdin().read_to_end(&mut bytes)?;
    Ok(bytes)
}

// Decodes base64, in lines of any length.
fn decode(alloc: Global, text: &[u8]) -> Result<Vec<u8>, DecodeAllocError> {
    let Ok(mut digits) = Vec::with_capacity(alloc, text.len()) else {
        return Err(DecodeAllocError::OutOfMemory);
    };
    for line in text.split(|byte| byte.is_ascii_whitespace()) {
        if digits.extend_from_slice(line).is_err() {
            return Err(DecodeAllocError::OutOfMemory);
        }
    }
    STANDARD.decode(alloc, &digits)
}

/// Reads a file, or standard input if the path is `-`, and decodes base64 if asked to.
///
/// # Errors
///
/// - `Read` if the file can't be opened or read.
/// - `NotBase64` if it isn't base64.
/// - `Memory` if an allocation fails.
pub fn read_input<'a>(
    rt: &HostRuntime,
    path: &'a str,
    base64: bool,
) -> Result<Vec<u8>, Failure<'a>> {
    let bytes = match read_bytes(rt, path) {
        Ok(bytes) => bytes,
        Err(error) if error.kind() == ErrorKind::OutOfMemory => return Err(Failure::Memory),
        Err(error) => return Err(Failure::Read(path, error)),
    };
    if !base64 {
        return Ok(bytes);
    }
    match decode(rt.alloc(), &bytes) {
        Ok(decoded) => Ok(decoded),
        Err(DecodeAllocError::OutOfMemory) => Err(Failure::Memory),
        Err(_) => Err(Failure::NotBase64(path)),
    }
}
