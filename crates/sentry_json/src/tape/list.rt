//! Lines that are an object of one member, an array, whose items are read one by one.

ghost use Rattle.std.specs.Prelude.{◌≡◌, ◌∷◌, IfOk, IfSome, IsTrue, List, length, false};
ghost use Rattle.serde_json.specs.Data.{Data};
ghost use Rattle.sentry_json.specs.Lists.{VisitsAll, VisitsLine};
ghost use Rattle.sentry_json.specs.Nodes.{items_data};
ghost use Rattle.sentry_json.specs.Spelled.{Spells};
ghost use Rattle.sentry_json.specs.Tokens.{items_of};
ghost use Rattle.sentry_json.specs.declared.tape.token.Token.{Token};
ghost use Rattle.sentry_json.specs.declared.tape.token.Token.TheVariants as token;

use crate::Node;
use crate::tape::rest::Rest;
use crate::tape::{DEEPEST, Tape, TapeNode, after_value};
use std::alloc::AllocError;

/// A visitor of the items of an array, one by one.
pub trait Visitor {
    // from the state before an item was visited to the state after
    ghost visits: { Self → Data → Self → Type 0 };

    /// Visits the item at a node; returns whether the visitor accepts it.
    ///
    /// # Errors
    ///
    /// `AllocError` if an allocation fails.
    fn visit<N: Node>(&mut self, node: &N) -> Result<bool, AllocError>
        ensures { IfOk result (λ accepted.
            IsTrue accepted → visits self.old (N.data_of node.now) self.new) };
}

// As deep as an item may nest, which stands in an array and an object.
const ITEM_DEEPEST: u8 = DEEPEST - 2;

impl<'a> Tape<'a> {
    /// Reads a line that is an object of one member, an array at `key`, and shows its items to
    /// `visitor`, one by one: the tokens of an item take the place of those of the item before.
    ///
    /// `None` if it isn't such a line, or none that [`Tape::parse`] takes, or if the visitor
    /// doesn't accept an item, never because an allocation fails; some items may have been visited
    /// then.
    ///
    /// # Errors
    ///
    /// `AllocError` if an allocation fails; some items may have been visited then.
    pub fn parse_list<T: Visitor>(
        &mut self,
        line: &'a [u8],
        key: &str,
        visitor: &mut T,
    ) -> Result<Option<()>, AllocError>
        ensures { IfOk result (λ read. IfSome read (λ _.
            VisitsLine T.visits key.now line.now visitor.old visitor.new)) }
    {
        let Some(()) = self.take_list(line, key, visitor) else {
            self.requests.granted()?;
            return Ok(None);
        };
        Ok(Some(()))
    }

    // As `parse_list`; `None` if an allocation fails, too.
    fn take_list<T: Visitor>(&mut self, line: &'a [u8], key: &str, visitor: &mut T) -> Option<()>
        ensures { IfSome result (λ _.
            VisitsLine T.visits key.now line.now visitor.old visitor.new) }
    {
        self.requests.refused = false;
        let text = Rest::new(line)?;
        let front = text.skip_space();
        let brace = front.after(b'{')?;
        let (name, behind) = brace.skip_space().split_plain()?;
        if name != key {
            return None;
        }
        let colon = behind.after_spaced(b':')?;
        let inside = colon.skip_space().after(b'[')?;
        let list = self.visit_items(inside, visitor)?;
        let rest = list.after_spaced(b'}')?;
        let end = rest.skip_space();
        if !end.text.is_empty() {
            return None;
        }
        Some(())
    }

    // Shows the items of an array to `visitor`, behind its opening bracket; returns what follows
    // it.
    fn visit_items<T: Visitor>(&mut self, inside: Rest<'a>, visitor: &mut T) -> Option<Rest<'a>>
        ensures { IfSome result (λ rest. (all : List Token) × (items : List Data)
            × (items_of all ≡ items_data (λ d. d) items)
            × Spells false (91 ∷ inside.entry.text.now) rest.text.now (token.Array (length all)) all 126
            × VisitsAll T.visits visitor.old items visitor.new) }
    {
        if let Some(rest) = inside.after_spaced(b']') {
            return Some(rest);
        }
        let mut left = inside.skip_space();
        loop {
            self.tokens.clear();
            let rest = self.take_value::<true, false>(left, false, ITEM_DEEPEST)?;
            let Ok(accepted) = visitor.visit(&TapeNode::new(&self.tokens)) else {
                return self.requests.refuse();
            };
            if !accepted {
                return None;
            }
            let (comma, next) = after_value(rest, b']')?;
            if !comma {
                return Some(next);
            }
            left = next.skip_space();
        }
    }
}
