//! IP addresses of users.

ghost use Rattle.std.specs.Prelude.{◌≡◌, ◌↔◌, IsTrue, Some, None};
ghost use Rattle.std.specs.Net.Grammar.{Parses};
ghost use Rattle.sentry_text.specs.declared.ip.IpAddress.TheVariants.{Exact};
ghost use Rattle.sentry_text.specs.Ip.{IsStoredIpAddress};

use crate::ip_text::hold_ip;
use sentry_tables::spelled::print_into;
use sentry_tables::{AsText, Formed, Room, Spelled, TreeError, Way};
use std::alloc::{AllocError, Global};
use std::cmp::Ordering;
use std::fmt;
use std::net::IpAddr;
use std::str::FromStr;
use thiserror::Error;

/// IP address of a user: `{{auto}}`, or an IPv4 or IPv6 address.
///
/// An IPv6 address is parsed from any text of RFC 4291, section 2.2, and written as RFC 5952
/// recommends: in lower case without leading zeros, with `::` for the longest run of two or more
/// zero groups. An IPv6 address that an IPv4 address is mapped to is written as `::ffff:` and the
/// IPv4 address.
#[derive(Clone, Copy, Debug, Default, PartialEq, Eq, PartialOrd, Ord, Hash)]
pub enum IpAddress {
    /// `{{auto}}`: the address of the user's connection.
    #[default]
    Auto,
    /// A given address.
    Exact(IpAddr),
}

/// The text is neither `{{auto}}` nor an IP address.
#[derive(Debug, Drop, Error)]
#[error("ParseIpError")]
pub struct ParseIpError;

impl IpAddress {
    /// Returns whether this is `Exact(other)`; false for `Auto`.
    pub fn eq_ip(&self, other: &IpAddr) -> bool
        ensures { IsTrue result ↔ (self.now ≡ Exact other.now) }
    {
        match self {
            IpAddress::Auto => false,
            IpAddress::Exact(ip) => *ip == *other,
        }
    }

    /// Compares this address with `other`: IPv4 before IPv6, then by number. `None` for `Auto`.
    pub fn partial_cmp_ip(&self, other: &IpAddr) -> Option<Ordering>
        ensures auto { self.now ≡ IpAddress.Auto → result ≡ None }
        ensures exact { (ip : IpAddr) → self.now ≡ Exact ip →
            result ≡ Some (⟦<IpAddr as Ord>⟧.cmp ip other.now) }
    {
        match self {
            IpAddress::Auto => None,
            IpAddress::Exact(ip) => Some(ip.cmp(other)),
        }
    }
}

impl From<IpAddr> for IpAddress {
    ghost from_gives = { λ ip a. a ≡ Exact ip };

    fn from(ip: IpAddr) -> IpAddress {
        Self::Exact(ip)
    }
}

impl FromStr for IpAddress {
    type Err = ParseIpError;

    ghost use Rattle.sentry_text.specs.Ip.{IsIpAddress};

    ghost from_str_gives = { Parses IsIpAddress };

    /// Parses `{{auto}}` or an IP address; any text around either is rejected.
    ///
    /// # Errors
    ///
    /// [`ParseIpError`] if the text is neither.
    fn from_str(text: &str) -> Result<IpAddress, ParseIpError> {
        match text {
            "{{auto}}" => Ok(IpAddress::Auto),
            _ => text.parse().map(IpAddress::Exact).map_err(|_| ParseIpError),
        }
    }
}

impl fmt::Display for IpAddress {
    ghost use Rattle.sentry_text.specs.Ip.{ip_address_text};

    ghost output = { λ a. Some (ip_address_text a) };

    fn fmt<W: fmt::Write>(&self, f: &mut fmt::Formatter<W>) -> fmt::Result {
        match self {
            IpAddress::Auto => f.write_str("{{auto}}"),
            IpAddress::Exact(ip) => fmt::Display::fmt(ip, f),
        }
    }
}

impl Formed for IpAddress {
    type Form = AsText;
}

impl Spelled for IpAddress {
    ghost use Rattle.sentry_text.specs.IpTree.{ip_address_cell, ip_address_spelling};

    ghost spelling = { ip_address_spelling };

    ghost cell_of = { ip_address_cell };

    #[tactic(auto, using(crate::proofs::IpTrees::address_read, crate::proofs::IpTrees::address_refused))]
    fn of_text(_alloc: Global, text: &str) -> Result<IpAddress, TreeError> {
        text.parse().map_err(|_| TreeError::Misfit)
    }

    fn text<'a>(&'a self, room: &'a mut Room) -> Result<&'a str, AllocError> {
        hold_address(self);
        print_into(self, room)
    }

    #[tactic(auto, using(sentry_tables::proofs::Ways::unchanged))]
    fn respell(&self, _way: Way) -> Result<IpAddress, AllocError> {
        Ok(*self)
    }

    fn hold(&self) {
        hold_address(self);
    }
}

// Nothing; an address has numbers in range.
fn hold_address(address: &IpAddress)
    ensures { IsStoredIpAddress address.now }
{
    match address {
        IpAddress::Auto => {}
        IpAddress::Exact(ip) => hold_ip(ip),
    }
}
