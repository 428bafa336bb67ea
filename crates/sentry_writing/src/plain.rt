//! A sink that tests whether the rows of a value are plain.

ghost use Rattle.std.specs.Prelude.{◌↔◌, IsTrue};
ghost use Rattle.sentry_tables.specs.Fields.{rows_of, cells_by};
ghost use Rattle.sentry_tables.specs.Meets.{RowsMeet, plain_demand, stored_demand};

use crate::sink::Sink;
use crate::table::Table;
use sentry_tables::Codec;

// A sink that tests each value, also one that its row omits, and writes nothing.
#[derive(Drop)]
struct PlainTest {
    plain: bool,
}

impl Sink for PlainTest {
    ghost use Rattle.std.specs.Prelude.{⊤};
    ghost use Rattle.sentry_writing.specs.Given.{Tested};

    ghost Adds = { λ a b ms. ⊤ };

    ghost Tests = { λ a b P Q. Tested a.plain b.plain P Q };

    fn member<F: Codec<T>, T>(&mut self, _key: &str, value: &T) {
        self.plain &= F::is_plain(value);
    }

    fn null(&mut self, _key: &str) {}

    fn word(&mut self, _key: &str, _text: &str) {}

    fn left_out<F: Codec<T>, T>(&mut self, value: &T) {
        self.plain &= F::is_plain(value);
    }

    fn left_out_text(&mut self, _text: &str) {}

    fn absent(&mut self) {}

    ghost nothing = { λ s. tt };

    ghost joined = { λ a b c ms ns x y. tt };
}

/// Returns whether each row of a value is plain: no number in it is held as a float, and no
/// additional member in it has the key of a row.
pub fn rows_are_plain<T: Table>(value: &T) -> bool
    ensures plain { IsTrue result ↔
        RowsMeet plain_demand (rows_of T.lines) (cells_by T.lines value.now) }
    ensures stored { IsTrue result →
        RowsMeet stored_demand (rows_of T.lines) (cells_by T.lines value.now) }
{
    let mut test = PlainTest { plain: true };
    value.rows(&mut test);
    test.plain
}
