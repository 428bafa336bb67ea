//! Tables of objects, known by the smallest objects that they read.

use crate::oracle::{Around, joined};
use crate::scan::{Part, cut, is_key, key_of, value_of};
use std::alloc::{AllocError, Global};

/// Returns what stands between the brackets of an object, with a comma if that is something.
pub(crate) fn inside(alloc: Global, object: &[u8]) -> Result<Vec<u8>, AllocError> {
    let members = cut(object, 1, object.len().saturating_sub(1));
    let mut all = joined(alloc, &[members])?;
    if !members.is_empty() {
        all.push(b',')?;
    }
    Ok(all)
}

/// A table, by the smallest object that it reads.
#[derive(Drop)]
pub(crate) struct Table {
    /// The object.
    pub donor: &'static [u8],
    /// Members of the donor.
    pub required: Vec<Part>,
    /// Text of the donor's members, with a comma if there are some.
    pub members: Vec<u8>,
    /// Whether an object's own `type` becomes that of the donor.
    pub retyped: bool,
}

impl Table {
    /// Returns the donor's value of a key.
    pub(crate) fn usual(&self, key: &[u8]) -> Option<&'static [u8]> {
        for own in &self.required {
            if is_key(key, key_of(self.donor, own)) {
                return Some(value_of(self.donor, own));
            }
        }
        None
    }
}

/// Returns what stands before the items or members of an array or object, behind its bracket and
/// what its table requires.
pub(crate) fn opened(
    alloc: Global,
    around: Around<'_>,
    bracket: &[u8],
    members: &[u8],
) -> Result<Vec<u8>, AllocError> {
    joined(alloc, &[around.before, bracket, members])
}

/// Returns what stands behind the items or members of an array or object, its bracket first.
pub(crate) fn closed(
    alloc: Global,
    around: Around<'_>,
    bracket: &[u8],
) -> Result<Vec<u8>, AllocError> {
    joined(alloc, &[bracket, around.behind])
}

/// Returns what stands before the value of a member among others.
pub(crate) fn before_value(
    alloc: Global,
    around: Around<'_>,
    key: &[u8],
) -> Result<Vec<u8>, AllocError> {
    joined(alloc, &[around.before, key, b":".as_slice()])
}

/// Returns the path of an item of an array.
pub(crate) fn item_path(alloc: Global, path: &[u8], at: usize) -> Result<Vec<u8>, AllocError> {
    let name = format!(in alloc; "[{at}]")?;
    joined(alloc, &[path, name.as_str().as_bytes()])
}

/// Returns the path of a member, whose key is given with its quotes.
pub(crate) fn member_path(alloc: Global, path: &[u8], key: &[u8]) -> Result<Vec<u8>, AllocError> {
    let mut all = joined(alloc, &[path])?;
    if !path.is_empty() {
        all.push(b'.')?;
    }
    all.extend_from_slice(cut(key, 1, key.len().saturating_sub(1)))?;
    Ok(all)
}

/// Returns a member with an empty list, behind a comma if another member stands before it.
pub(crate) fn empty_list(alloc: Global, key: &[u8], kept: bool) -> Result<Vec<u8>, AllocError> {
    let mut all = Vec::new(alloc);
    if kept {
        all.push(b',')?;
    }
    all.extend_from_slice(key)?;
    all.extend_from_slice(b":[]")?;
    Ok(all)
}
