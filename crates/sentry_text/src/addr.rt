//! Addresses and register values.

ghost use Rattle.std.specs.Prelude.{◌≡◌, ◌↔◌, IfOk, IsTrue, Some};
ghost use Rattle.std.specs.Int.{w64, cast_unsigned};
ghost use Rattle.std.specs.Result.{result_ok};
ghost use Rattle.sentry_text.specs.Number.{ReadsAs};
ghost use Rattle.sentry_text.specs.Address.{address_of, address_text};
ghost use Rattle.sentry_tables.specs.Cells.{natural_cell};
ghost use Rattle.sentry_text.specs.AddressTree.{address_in, address_kind};

use crate::{ParseNumberError, parse_number};
use sentry_json::{Node, Writer};
use sentry_tables::member::Usual;
use sentry_tables::spelled::print_into;
use sentry_tables::{FromTree, Member, Room, TreeError, Way};
use serde_json::Value;
use std::alloc::{AllocError, Global};
use std::fmt;
use std::str::FromStr;

/// Memory address in a stack frame or debug image.
///
/// Parsed from `0x` or `0X` and hex digits, or from decimal digits, with an optional `+` before the
/// digits; written as `0x` and hex digits in lower case.
/// <https://develop.sentry.dev/sdk/data-model/event-payloads/stacktrace/>
#[derive(Clone, Copy, Debug, Default, PartialEq, Eq, PartialOrd, Ord, Hash)]
pub struct Addr(pub u64);

/// Register value, parsed and written as an [`Addr`].
/// <https://develop.sentry.dev/sdk/data-model/event-payloads/stacktrace/>
#[derive(Clone, Copy, Debug, Default, PartialEq, Eq, PartialOrd, Ord, Hash)]
pub struct RegVal(pub u64);

fn parse_address(text: &str) -> Result<u64, ParseNumberError>
    ensures { result_ok result ≡ address_of text.now }
{
    match text.strip_prefix("0x") {
        Some(digits) => parse_number(digits, 16),
        None => match text.strip_prefix("0X") {
            Some(digits) => parse_number(digits, 16),
            None => parse_number(text, 10),
        },
    }
}

impl Addr {
    /// Returns whether the address is 0.
    pub fn is_null(&self) -> bool
        ensures { IsTrue result ↔ (self.now.0 ≡ 0) }
    {
        self.0 == 0
    }
}

impl FromStr for Addr {
    type Err = ParseNumberError;

    ghost from_str_gives = { ReadsAs address_of (λ a. a.0) };

    /// Parses an address.
    ///
    /// # Errors
    ///
    /// `ParseNumberError` if the text has no digits or a character that is no digit of its base, or
    /// if the number has more than 64 bits.
    fn from_str(text: &str) -> Result<Addr, ParseNumberError> {
        Ok(Addr(parse_address(text)?))
    }
}

impl FromStr for RegVal {
    type Err = ParseNumberError;

    ghost from_str_gives = { ReadsAs address_of (λ a. a.0) };

    /// Parses a register value.
    ///
    /// # Errors
    ///
    /// `ParseNumberError` if the text has no digits or a character that is no digit of its base, or
    /// if the number has more than 64 bits.
    fn from_str(text: &str) -> Result<RegVal, ParseNumberError> {
        Ok(RegVal(parse_address(text)?))
    }
}

impl fmt::Display for Addr {
    ghost output = { λ a. Some (address_text a.0) };

    fn fmt<W: fmt::Write>(&self, f: &mut fmt::Formatter<W>) -> fmt::Result {
        write!(f, "0x{:x}", self.0)
    }
}

impl fmt::Display for RegVal {
    ghost output = { λ a. Some (address_text a.0) };

    fn fmt<W: fmt::Write>(&self, f: &mut fmt::Formatter<W>) -> fmt::Result {
        fmt::Display::fmt(&Addr(self.0), f)
    }
}

impl From<u64> for Addr {
    ghost from_gives = { λ n a. a.0 ≡ n };

    fn from(number: u64) -> Addr {
        Addr(number)
    }
}

impl From<u32> for Addr {
    ghost from_gives = { λ n a. a.0 ≡ n };

    fn from(number: u32) -> Addr {
        Addr(u64::from(number))
    }
}

impl From<usize> for Addr {
    ghost from_gives = { λ n a. a.0 ≡ n };

    fn from(number: usize) -> Addr {
        Addr(number as u64)
    }
}

impl From<i32> for Addr {
    // the sign is extended to 64 bits
    ghost from_gives = { λ n a. a.0 ≡ cast_unsigned w64 n };

    fn from(number: i32) -> Addr {
        Addr(i64::from(number).cast_unsigned())
    }
}

impl From<Addr> for u64 {
    ghost from_gives = { λ a n. n ≡ a.0 };

    fn from(addr: Addr) -> u64 {
        addr.0
    }
}

impl From<u64> for RegVal {
    ghost from_gives = { λ n a. a.0 ≡ n };

    fn from(number: u64) -> RegVal {
        RegVal(number)
    }
}

impl From<u32> for RegVal {
    ghost from_gives = { λ n a. a.0 ≡ n };

    fn from(number: u32) -> RegVal {
        RegVal(u64::from(number))
    }
}

impl From<usize> for RegVal {
    ghost from_gives = { λ n a. a.0 ≡ n };

    fn from(number: usize) -> RegVal {
        RegVal(number as u64)
    }
}

impl From<i32> for RegVal {
    // the sign is extended to 64 bits
    ghost from_gives = { λ n a. a.0 ≡ cast_unsigned w64 n };

    fn from(number: i32) -> RegVal {
        RegVal(i64::from(number).cast_unsigned())
    }
}

impl From<RegVal> for u64 {
    ghost from_gives = { λ a n. n ≡ a.0 };

    fn from(value: RegVal) -> u64 {
        value.0
    }
}

// The address that the tree at a node shows.
#[tactic(auto, using(crate::proofs::AddressTrees::text_address, crate::proofs::AddressTrees::natural_address, crate::proofs::AddressTrees::signed_address, crate::proofs::AddressTrees::no_address))]
fn address_in<N: Node>(node: &N) -> Option<u64>
    ensures { result ≡ address_in (N.data_of node.now) }
{
    if let Some(text) = node.as_str() {
        return parse_address(text).ok();
    }
    if let Some(natural) = node.as_u64() {
        return Some(natural);
    }
    node.as_i64().map(i64::cast_unsigned)
}

impl Addr {
    // The text of the address, in `room`.
    #[tactic(auto, using(crate::proofs::AddressLengths::address_fits))]
    fn text<'a>(&self, room: &'a mut Room) -> Result<&'a str, AllocError>
        ensures { IfOk result (λ s. s.now ≡ address_text self.now.0) }
    {
        let _number = self.0;
        print_into(self, room)
    }
}

/// An address is written as a JSON string, and read from a string or a whole number; a negative
/// number stands for its 64 bits in two's complement.
impl Member for Addr {
    ghost kind = { address_kind };

    ghost cell_of = { λ a. natural_cell a.0 };

    #[tactic(auto, using(crate::proofs::AddressTrees::address_tree_is))]
    fn to_tree(&self, alloc: Global) -> Result<Value, AllocError> {
        let mut room = Room::new();
        Value::try_from_str(alloc, self.text(&mut room)?)
    }

    #[tactic(auto, using(crate::proofs::AddressTrees::address_wrote))]
    fn write(&self, out: &mut Writer) -> Result<(), AllocError> {
        let mut room = Room::new();
        out.string(self.text(&mut room)?)
    }

    #[tactic(auto, using(sentry_tables::proofs::Ways::unchanged))]
    fn remake(&self, _way: Way) -> Result<Addr, AllocError> {
        Ok(*self)
    }

    fn is_null_tree(&self) -> bool {
        false
    }

    fn is_plain(&self) -> bool {
        let _number = self.0;
        true
    }
}

impl FromTree for Addr {
    #[tactic(auto, using(crate::proofs::AddressTrees::address_found, crate::proofs::AddressTrees::address_refused))]
    fn from_node<N: Node>(_alloc: Global, node: &N) -> Result<Addr, TreeError> {
        address_in(node).map(Addr).ok_or(TreeError::Misfit)
    }
}

impl Usual for Addr {
    fn is(&self, usual: &Addr) -> bool {
        *self == *usual
    }
}

/// A register value is written and read as an address.
impl Member for RegVal {
    ghost kind = { address_kind };

    ghost cell_of = { λ a. natural_cell a.0 };

    fn to_tree(&self, alloc: Global) -> Result<Value, AllocError> {
        Addr(self.0).to_tree(alloc)
    }

    fn write(&self, out: &mut Writer) -> Result<(), AllocError> {
        Addr(self.0).write(out)
    }

    #[tactic(auto, using(sentry_tables::proofs::Ways::unchanged))]
    fn remake(&self, _way: Way) -> Result<RegVal, AllocError> {
        Ok(*self)
    }

    fn is_null_tree(&self) -> bool {
        false
    }

    fn is_plain(&self) -> bool {
        Addr(self.0).is_plain()
    }
}

impl FromTree for RegVal {
    fn from_node<N: Node>(alloc: Global, node: &N) -> Result<RegVal, TreeError> {
        Ok(RegVal(Addr::from_node(alloc, node)?.0))
    }
}
