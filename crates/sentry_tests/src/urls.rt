//! URLs that setters alone can make: they are written as a text that the parser reads as another
//! URL.

use crate::wanted::wanted;
use sentry_types::protocol::v7::{Codec, ReadCodec, TreeError, Url, UrlText, Value};
use std::alloc::Global;
use std::net::{IpAddr, Ipv4Addr};
use std::test::Fail;
use url::Host;

fn url_of(alloc: Global, text: &str) -> Result<Url, TreeError> {
    let tree = Value::try_from_str(alloc, text)?;
    UrlText::from_node(alloc, &&tree)
}

/// The URL that is read of what is written of a URL, if this is the text that is written.
fn read_back(alloc: Global, url: &Url, text: &str) -> Result<Url, Fail> {
    let tree = UrlText::to_tree(url, alloc)?;
    if tree.as_str() != Some(text) {
        return Err("another text")?;
    }
    Ok(UrlText::from_node(alloc, &&tree)?)
}

#[test]
fn opaque_paths_that_end_in_a_space(rt: HostRuntime) -> Result<(), Fail> {
    let mut url = url_of(rt.alloc(), "mailto:a@b")?;
    url.set_path("a@c ")?;
    wanted(read_back(rt.alloc(), &url, "mailto:a@c ")?.as_str() == "mailto:a@c")
}

#[test]
fn hosts_that_are_numbers(rt: HostRuntime) -> Result<(), Fail> {
    let mut url = url_of(rt.alloc(), "web+demo://host/")?;
    url.set_ip_host(IpAddr::from(Ipv4Addr::new(1, 2, 3, 4)))?;
    let read = read_back(rt.alloc(), &url, "web+demo://1.2.3.4/")?;
    let address = matches!(url.host(), Some(Host::Ipv4(_)));
    wanted(address && matches!(read.host(), Some(Host::Domain("1.2.3.4"))))
}
