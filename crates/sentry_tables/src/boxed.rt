//! Boxed values as members.

use crate::codec::Codec;
use crate::error::TreeError;
use crate::member::{Formed, Member};
use crate::read::{FromTree, ReadCodec};
use crate::way::Way;
use sentry_json::{Node, Writer};
use serde_json::Value;
use std::alloc::{AllocError, Global};

/// Codec of a box: the form of the value inside.
pub struct AsBoxed;

impl<T: Member> Codec<Box<T>> for AsBoxed {
    ghost kind = { T.kind };

    ghost cell_of = { λ boxed. T.cell_of boxed.value };

    fn to_tree(value: &Box<T>, alloc: Global) -> Result<Value, AllocError> {
        value.as_ref().to_tree(alloc)
    }

    fn write(value: &Box<T>, out: &mut Writer) -> Result<(), AllocError> {
        value.as_ref().write(out)
    }

    fn remake(value: &Box<T>, way: Way) -> Result<Box<T>, AllocError> {
        Ok(Box::new(*Box::allocator(value), value.as_ref().remake(way)?)?)
    }

    fn is_null_tree(value: &Box<T>) -> bool {
        value.as_ref().is_null_tree()
    }

    fn is_plain(value: &Box<T>) -> bool {
        value.as_ref().is_plain()
    }
}

impl<T: FromTree> ReadCodec<Box<T>> for AsBoxed {
    fn from_node<N: Node>(alloc: Global, node: &N) -> Result<Box<T>, TreeError> {
        Ok(Box::new(alloc, T::from_node(alloc, node)?)?)
    }

    fn pass<N: Node>(alloc: Global, node: &N, out: &mut Writer) -> Result<(), TreeError> {
        T::pass(alloc, node, out)
    }
}

impl<T: Member> Formed for Box<T> {
    type Form = AsBoxed;
}
