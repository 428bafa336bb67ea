//! The payload of a container: an object with an array `items`.

ghost use Rattle.sentry_items.specs.Containers.{container_kind, items_cell};
ghost use Rattle.sentry_tables.specs.Reading.{ReadsText};

use sentry_rows::{AsTable, Copier, CopyTable, ReadTable, Sink, Source, Table};
use sentry_tables::{Formed, FromTree, LineReader, Member, TreeError};
use std::alloc::AllocError;

/// The payload of a container: an object with its values in the array `items`. Other members are
/// ignored.
#[derive(Drop)]
pub struct Listed<T: Drop> {
    /// Values, in order.
    pub items: Vec<T>,
}

impl<T: Member> Formed for Listed<T> {
    type Form = AsTable;
}

impl<T: Member> Table for Listed<T> {
    ghost use Rattle.sentry_items.specs.Containers.{listed_fields, listed_in_order};

    ghost lines = { listed_fields T.kind T.cell_of };

    fn rows<S: Sink>(&self, to: &mut S) {
        to.required("items", &self.items);
    }

    ghost ordered = { listed_in_order T.kind T.cell_of };
}

impl<T: FromTree> ReadTable for Listed<T> {
    fn read<S: Source>(from: &mut S) -> Listed<T> {
        Listed {
            items: from.required("items", Vec::new(from.alloc())),
        }
    }
}

impl<T: Member> CopyTable for Listed<T> {
    fn copy_rows(&self, copies: &mut Copier) -> Result<Listed<T>, AllocError> {
        Ok(Listed {
            items: copies.list(&self.items),
        })
    }
}

/// Reads the payload of a container: one value at a time if it has no other member than `items`,
/// else as a whole.
///
/// # Errors
///
/// - `Misfit` if the payload is no JSON object without floats, with values of the type in the array
///   `items`.
/// - `Memory` if an allocation fails.
pub fn read_listed<'a, T: FromTree>(
    lines: &mut LineReader<'a>,
    payload: &'a [u8],
) -> Result<Listed<T>, TreeError>
    ensures { ReadsText (container_kind T.kind) (λ listed.
        items_cell T.cell_of listed.items.items) payload.now result }
{
    match lines.read_list("items", payload)? {
        Some(items) => Ok(Listed { items }),
        None => lines.read(payload),
    }
}

// A `Listed` that borrows its values.
#[derive(Drop)]
pub(crate) struct Lent<'s, T: Drop> {
    pub items: &'s Vec<T>,
}

impl<'s, T: Member> Table for Lent<'s, T> {
    ghost use Rattle.sentry_items.specs.Containers.{lent_fields, lent_in_order};

    ghost lines = { lent_fields T.kind T.cell_of };

    fn rows<S: Sink>(&self, to: &mut S) {
        to.required("items", self.items);
    }

    ghost ordered = { lent_in_order T.kind T.cell_of };
}
