//! What comes first, what is usual, and what numbers stand for; lists under the key `values`.

use crate::wanted::wanted;
use sentry_types::protocol::v7::{
    Addr, CError, IpAddress, Level, Moment, PosixSignal, RegVal, SessionStatus, ThreadId, Unit,
    Values,
};
use sentry_types::{Scheme, protocol};
use std::alloc::{AllocError, Global};
use std::net::{IpAddr, Ipv4Addr};
use std::test::Fail;

#[test]
fn usual_values(_rt: HostRuntime) -> Result<(), Fail> {
    wanted(
        Level::default() == Level::Info
            && SessionStatus::default() == SessionStatus::Ok
            && IpAddress::default() == IpAddress::Auto
            && Addr::default() == Addr::from(0u64)
            && ThreadId::default() == ThreadId::Int(0)
            && Unit::from("weeks") == Unit::Week
            && protocol::LATEST == 7,
    )
}

#[test]
fn orders(_rt: HostRuntime) -> Result<(), Fail> {
    let exact = IpAddress::from(IpAddr::from(Ipv4Addr::new(0, 0, 0, 0)));
    wanted(
        Moment::new(5, 7) < Moment::new(5, 8)
            && Moment::new(5, 8) < Moment::new(6, 3)
            && Moment::new(5, 7) == Moment::new(5, 7)
            && Moment::new(5, 7) != Moment::new(5, 8),
    )?;
    wanted(
        Level::Debug < Level::Info
            && Level::Error < Level::Fatal
            && SessionStatus::Ok < SessionStatus::Exited
            && Scheme::Http < Scheme::Https,
    )?;
    wanted(
        Addr::from(1u64) < Addr::from(2u64)
            && RegVal::from(1u64) < RegVal::from(2u64)
            && IpAddress::Auto < exact,
    )
}

/// Numbers that stand for ids of threads, codes of errors and signals.
#[test]
fn numbers(_rt: HostRuntime) -> Result<(), Fail> {
    wanted(
        ThreadId::from(-1i32) == ThreadId::Int(u64::MAX)
            && ThreadId::from(-1i64) == ThreadId::Int(u64::MAX)
            && ThreadId::from(7u16) == ThreadId::Int(7)
            && ThreadId::from(7u32) == ThreadId::Int(7)
            && i32::from(CError::from(-2)) == -2
            && i32::from(PosixSignal::from(11)) == 11
            && PosixSignal::from((11, 1)).code == Some(1),
    )
}

/// A list that grows from two iterators, and its end.
fn grown(alloc: Global) -> Result<Values<u64>, AllocError> {
    let mut list = Values::try_from_iter(alloc, [1, 2])?;
    list.try_extend([3])?;
    Ok(list)
}

/// A list whose numbers are changed in place, and that then has one more.
fn changed(alloc: Global) -> Result<Values<u64>, AllocError> {
    let mut list = grown(alloc)?;
    for number in list.iter_mut() {
        *number = number.saturating_add(1);
    }
    if let Some(first) = list.as_mut_slice().first_mut() {
        *first = 7;
    }
    list.as_vec_mut().push(9)?;
    Ok(list)
}

#[test]
fn changed_lists(rt: HostRuntime) -> Result<(), Fail> {
    wanted(changed(rt.alloc())?.as_slice() == [7, 3, 4, 9].as_slice())
}

#[test]
fn lists(rt: HostRuntime) -> Result<(), Fail> {
    let alloc = rt.alloc();
    let list = grown(alloc)?;
    let same = Values::from(Vec::from_slice(alloc, &[1, 2, 3])?);
    wanted(list == same && list.clone()? == list && !list.is_empty())?;
    wanted(list.as_slice() == [1, 2, 3].as_slice() && list.iter().count() == 3)?;
    wanted(Values::<u64>::new(alloc).is_empty() && list.into_iter().count() == 3)
}
