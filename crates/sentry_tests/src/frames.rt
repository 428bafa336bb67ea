//! Frames are asked for again after a failed allocation; a header alone.

use crate::wanted::wanted;
use sentry_types::protocol::v7::{EnvelopeError, Frames, ItemKind, read_item_header};
use std::test::Fail;

#[test]
fn asks_again(rt: HostRuntime) -> Result<(), Fail> {
    let bytes = b"{}\n{\"type\":\"attachment\",\"filename\":\"a\"}\nhelloworld";
    let mut frames = Frames::new(bytes);
    for _ in 0..2u8 {
        let before = frames.rest();
        match frames.next_frame(rt.alloc()) {
            Some(Err(EnvelopeError::OutOfMemory)) => wanted(frames.rest() == before)?,
            Some(Ok(item)) => return wanted(item.payload == b"helloworld".as_slice()),
            _ => return wanted(false),
        }
    }
    wanted(false)
}

#[test]
fn an_item_header_is_read(rt: HostRuntime) -> Result<(), Fail> {
    let line = b"{\"length\":3,\"filename\":\"a\",\"type\":\"attachment\"}";
    let header = read_item_header(rt.alloc(), line)?;
    wanted(
        matches!(&header.filename, Some(name) if name.as_str() == "a")
            && header.kind == ItemKind::Attachment
            && header.length == Some(3),
    )
}
