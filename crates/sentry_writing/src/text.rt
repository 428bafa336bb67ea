//! A sink that writes rows as JSON text.

ghost use Rattle.std.specs.Prelude.{◌≡◌, OnOk};
ghost use Rattle.serde_json.specs.Data.{no_members, member, null, string};
ghost use Rattle.sentry_tables.specs.Writes.{written, WritesMembers};

use crate::sink::Sink;
use sentry_json::Writer;
use sentry_tables::Codec;
use std::alloc::AllocError;

/// A sink that appends members to a JSON writer.
///
/// After an allocation failure no further member is written.
#[derive(Drop)]
pub struct TextRows<'w> {
    /// Writer of the text, inside an object that has begun.
    pub out: &'w mut Writer,
    /// First allocation failure, if any.
    pub failed: Option<AllocError>,
}

impl<'w> Sink for TextRows<'w> {
    ghost use Rattle.std.specs.Prelude.{refl, ⊤};
    ghost use Rattle.sentry_writing.specs.Failing.{While, nothing_while, joined_while};
    ghost use Rattle.sentry_writing.specs.Joined.{members_join};
    ghost use Rattle.sentry_tables.specs.Continued.{no_members_wrote};
    ghost use Rattle.std.proofs.Common.{◌∙◌};

    ghost Adds = { λ a b ms. (b.out.ghost_name ≡ a.out.ghost_name) ×
        While a.failed b.failed (WritesMembers ms a.out.now b.out.now) };

    ghost Tests = { λ a b P Q. ⊤ };

    #[tactic(auto, using(crate::proofs::Failing::wrote_while, crate::proofs::Failing::after_failure))]
    #[inline(always)]
    fn member<F: Codec<T>, T>(&mut self, key: &str, value: &T) {
        if self.failed.is_some() {
            return;
        }
        self.failed = write_member::<F, T>(&mut *self.out, key, value).err();
    }

    #[tactic(auto, using(crate::proofs::Failing::wrote_while, crate::proofs::Failing::after_failure))]
    #[inline(always)]
    fn null(&mut self, key: &str) {
        if self.failed.is_some() {
            return;
        }
        self.failed = write_null(&mut *self.out, key).err();
    }

    #[tactic(auto, using(crate::proofs::Failing::wrote_while, crate::proofs::Failing::after_failure))]
    #[inline(always)]
    fn word(&mut self, key: &str, text: &str) {
        if self.failed.is_some() {
            return;
        }
        self.failed = write_word(&mut *self.out, key, text).err();
    }

    #[tactic(auto, using(crate::specs::Failing::nothing_while, sentry_tables::specs::Continued::no_members_wrote))]
    #[inline(always)]
    fn left_out<F: Codec<T>, T>(&mut self, _value: &T) {}

    #[tactic(auto, using(crate::specs::Failing::nothing_while, sentry_tables::specs::Continued::no_members_wrote))]
    #[inline(always)]
    fn left_out_text(&mut self, _text: &str) {}

    #[tactic(auto, using(crate::specs::Failing::nothing_while, sentry_tables::specs::Continued::no_members_wrote))]
    #[inline(always)]
    fn absent(&mut self) {}

    ghost nothing = { λ s. (refl, nothing_while s.failed (no_members_wrote s.out.now)) };

    ghost joined = { λ a b c ms ns x y. (
      y.0 ∙ x.0,
      joined_while a.failed b.failed c.failed
          (members_join ms ns a.out.now b.out.now c.out.now) x.1 y.1,
    ) };
}

#[inline(always)]
pub(crate) fn write_member<F: Codec<T>, T>(
    out: &mut Writer,
    key: &str,
    value: &T,
) -> Result<(), AllocError>
    ensures { OnOk result
        (WritesMembers (member key.now (written F.kind (F.cell_of value.now)) no_members) out.old
        out.new) }
{
    out.key(key)?;
    F::write(value, out)
}

#[inline(always)]
fn write_null(out: &mut Writer, key: &str) -> Result<(), AllocError>
    ensures { OnOk result (WritesMembers (member key.now null no_members) out.old out.new) }
{
    out.key(key)?;
    out.null()
}

#[inline(always)]
fn write_word(out: &mut Writer, key: &str, text: &str) -> Result<(), AllocError>
    ensures { OnOk result
        (WritesMembers (member key.now (string text.now) no_members) out.old out.new) }
{
    out.key(key)?;
    out.string(text)
}
