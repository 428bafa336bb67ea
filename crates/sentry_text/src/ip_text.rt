//! The form of IP addresses as trees.

ghost use Rattle.std.specs.Prelude.{◌≡◌, ◌<◌, ◌^◌, ℕ, IfOk, length, slice_index};
ghost use Rattle.sentry_tables.specs.Spelling.{ReadsSpelling};
ghost use Rattle.sentry_text.specs.Ip.{IsStoredIp};
ghost use Rattle.sentry_text.specs.IpTree.{ip_cell, ip_cell_text, ip_kind, ip_spelling};

use sentry_json::{Node, Writer};
use sentry_tables::spelled::print_into;
use sentry_tables::{Codec, ReadCodec, Room, TreeError, Way};
use serde_json::Value;
use std::alloc::{AllocError, Global};
use std::net::IpAddr;

/// The JSON form of an IP address as a string.
///
/// An IPv4 address is read from four numbers without leading zeros, an IPv6 address from any text
/// of RFC 4291, section 2.2. An IPv6 address is written as RFC 5952 recommends.
pub struct IpText;

impl Codec<IpAddr> for IpText {
    ghost kind = { ip_kind };

    ghost cell_of = { ip_cell };

    #[tactic(auto, using(sentry_tables::proofs::Spellings::text_tree))]
    fn to_tree(value: &IpAddr, alloc: Global) -> Result<Value, AllocError> {
        let mut room = Room::new();
        Value::try_from_str(alloc, written_ip(value, &mut room)?)
    }

    #[tactic(auto, using(sentry_tables::proofs::Spellings::spelling_wrote))]
    fn write(value: &IpAddr, out: &mut Writer) -> Result<(), AllocError> {
        let mut room = Room::new();
        out.string(written_ip(value, &mut room)?)
    }

    #[tactic(auto, using(sentry_tables::proofs::Ways::unchanged))]
    fn remake(value: &IpAddr, _way: Way) -> Result<IpAddr, AllocError> {
        Ok(*value)
    }

    fn is_null_tree(_value: &IpAddr) -> bool {
        false
    }

    fn is_plain(value: &IpAddr) -> bool {
        hold_ip(value);
        true
    }
}

impl ReadCodec<IpAddr> for IpText {
    #[tactic(auto, using(sentry_tables::proofs::Spellings::text_read, sentry_tables::proofs::Spellings::not_text))]
    fn from_node<N: Node>(_alloc: Global, node: &N) -> Result<IpAddr, TreeError> {
        read_ip(node.as_str().ok_or(TreeError::Misfit)?)
    }
}

// The address that a text writes.
#[tactic(auto, using(crate::proofs::IpTrees::ip_read, crate::proofs::IpTrees::ip_refused))]
fn read_ip(text: &str) -> Result<IpAddr, TreeError>
    ensures { ReadsSpelling ip_spelling ip_cell text.now result }
{
    text.parse().map_err(|_| TreeError::Misfit)
}

// The text that is written.
fn written_ip<'a>(ip: &IpAddr, room: &'a mut Room) -> Result<&'a str, AllocError>
    ensures { IfOk result (λ s. s.now ≡ ip_cell_text (ip_cell ip.now)) }
{
    hold_ip(ip);
    print_into(ip, room)
}

// Does nothing; its contract says that the numbers of an address are in range.
pub(crate) fn hold_ip(ip: &IpAddr)
    ensures { IsStoredIp ip.now }
{
    match ip {
        IpAddr::V4(ip) => hold_octets(ip.octets()),
        IpAddr::V6(ip) => hold_segments(ip.segments()),
    }
}

// Nothing; four bytes.
fn hold_octets(octets: [u8; 4])
    ensures size { length octets ≡ 4 }
    ensures small { (k : ℕ) → slice_index octets k < 2 ^ 8 }
{}

// Nothing; eight numbers of 16 bits.
fn hold_segments(segments: [u16; 8])
    ensures size { length segments ≡ 8 }
    ensures small { (k : ℕ) → slice_index segments k < 2 ^ 16 }
{}
