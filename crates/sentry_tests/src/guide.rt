//! Parts of programs that use envelopes, as docs/GUIDE.md shows them, each with a test.

mod client;
mod relay;
mod spool;
mod viewer;
