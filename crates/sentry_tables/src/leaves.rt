//! Strings, booleans, integers with a sign and pairs of integers as members.

ghost use Rattle.std.specs.Prelude.{◌^◌};
ghost use Rattle.sentry_tables.specs.Cell.{truth, whole};
ghost use Rattle.sentry_tables.specs.Cells.{text_cell, cow_cell, pair_cell};
ghost use Rattle.sentry_tables.specs.Kinds.{text_kind, truth_kind, signed_kind, pair_kind};

use crate::member::Member;
use crate::way::Way;
use sentry_json::Writer;
use serde_json::Value;
use std::alloc::{AllocError, Global};
use std::borrow::CowStr;

impl Member for String {
    ghost kind = { text_kind };

    ghost cell_of = { text_cell };

    #[tactic(auto, unfolding(crate::specs::Writes::written))]
    fn to_tree(&self, alloc: Global) -> Result<Value, AllocError> {
        Value::try_from_str(alloc, self.as_str())
    }

    #[tactic(auto, using(crate::proofs::Tokens::text_wrote))]
    fn write(&self, out: &mut Writer) -> Result<(), AllocError> {
        out.string(self.as_str())
    }

    #[tactic(auto, using(crate::proofs::Ways::unchanged))]
    fn remake(&self, _way: Way) -> Result<String, AllocError> {
        self.clone()
    }

    fn is_null_tree(&self) -> bool {
        false
    }

    fn is_plain(&self) -> bool {
        let _text = self.as_str();
        true
    }
}

impl Member for bool {
    ghost kind = { truth_kind };

    ghost cell_of = { truth };

    #[tactic(auto, unfolding(crate::specs::Writes::written))]
    fn to_tree(&self, _alloc: Global) -> Result<Value, AllocError> {
        Ok(Value::from(*self))
    }

    #[tactic(auto, using(crate::proofs::Tokens::truth_wrote))]
    fn write(&self, out: &mut Writer) -> Result<(), AllocError> {
        out.boolean(*self)
    }

    #[tactic(auto, using(crate::proofs::Ways::unchanged))]
    fn remake(&self, _way: Way) -> Result<bool, AllocError> {
        Ok(*self)
    }

    fn is_null_tree(&self) -> bool {
        false
    }

    fn is_plain(&self) -> bool {
        true
    }
}

impl Member for i32 {
    ghost kind = { signed_kind (2 ^ 31) };

    ghost cell_of = { whole };

    #[tactic(auto, using(crate::proofs::Tokens::i32_tree))]
    fn to_tree(&self, _alloc: Global) -> Result<Value, AllocError> {
        Ok(Value::from(*self))
    }

    #[tactic(auto, using(crate::proofs::Tokens::i32_wrote))]
    fn write(&self, out: &mut Writer) -> Result<(), AllocError> {
        out.i64(i64::from(*self))
    }

    #[tactic(auto, using(crate::proofs::Ways::unchanged))]
    fn remake(&self, _way: Way) -> Result<i32, AllocError> {
        Ok(*self)
    }

    fn is_null_tree(&self) -> bool {
        false
    }

    fn is_plain(&self) -> bool {
        let _number = *self;
        true
    }
}

impl Member for i64 {
    ghost kind = { signed_kind (2 ^ 63) };

    ghost cell_of = { whole };

    #[tactic(auto, using(crate::proofs::Tokens::i64_tree))]
    fn to_tree(&self, _alloc: Global) -> Result<Value, AllocError> {
        Ok(Value::from(*self))
    }

    #[tactic(auto, using(crate::proofs::Tokens::i64_wrote))]
    fn write(&self, out: &mut Writer) -> Result<(), AllocError> {
        out.i64(*self)
    }

    #[tactic(auto, using(crate::proofs::Ways::unchanged))]
    fn remake(&self, _way: Way) -> Result<i64, AllocError> {
        Ok(*self)
    }

    fn is_null_tree(&self) -> bool {
        false
    }

    fn is_plain(&self) -> bool {
        let _number = *self;
        true
    }
}

impl Member for (u64, u64) {
    ghost kind = { pair_kind };

    ghost cell_of = { pair_cell };

    #[tactic(auto, using(crate::proofs::Tokens::pair_tree_is))]
    fn to_tree(&self, alloc: Global) -> Result<Value, AllocError> {
        let mut numbers = Vec::with_capacity(alloc, 2)?;
        numbers.push(Value::from(self.0))?;
        numbers.push(Value::from(self.1))?;
        Ok(Value::Array(numbers))
    }

    #[tactic(auto, using(crate::proofs::Tokens::pair_wrote))]
    fn write(&self, out: &mut Writer) -> Result<(), AllocError> {
        out.begin_array()?;
        out.u64(self.0)?;
        out.u64(self.1)?;
        out.end_array()
    }

    #[tactic(auto, using(crate::proofs::Ways::unchanged))]
    fn remake(&self, _way: Way) -> Result<(u64, u64), AllocError> {
        Ok(*self)
    }

    fn is_null_tree(&self) -> bool {
        false
    }

    fn is_plain(&self) -> bool {
        let _first = self.0;
        let _second = self.1;
        true
    }
}

impl<'a> Member for CowStr<'a> {
    ghost kind = { text_kind };

    ghost cell_of = { cow_cell };

    #[tactic(auto, unfolding(crate::specs::Writes::written))]
    fn to_tree(&self, alloc: Global) -> Result<Value, AllocError> {
        Value::try_from_str(alloc, self.as_str())
    }

    #[tactic(auto, using(crate::proofs::Tokens::text_wrote))]
    fn write(&self, out: &mut Writer) -> Result<(), AllocError> {
        out.string(self.as_str())
    }

    #[tactic(auto, using(crate::proofs::Ways::unchanged))]
    fn remake(&self, _way: Way) -> Result<CowStr<'a>, AllocError> {
        self.clone()
    }

    fn is_null_tree(&self) -> bool {
        false
    }

    fn is_plain(&self) -> bool {
        let _text = self.as_str();
        true
    }
}
