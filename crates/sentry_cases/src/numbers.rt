//! What numbers are made into.

use crate::moments::{of_moment, of_rand};
use crate::said::{as_tree, known, list, none, refused, shown, unknown};
use crate::words::of_place;
use sentry_types::protocol::v7::{
    Addr, Decimal, IpAddress, LogSeverityNumber, Moment, OrganizationId, RegVal, SampleRand,
    SampleRate, Value,
};
use std::alloc::{AllocError, Global};
use std::cmp::Ordering;
use std::net::IpAddr;

fn of_severity(alloc: Global, number: u64) -> Result<Value, AllocError> {
    match LogSeverityNumber::try_from(u8::try_from(number).unwrap_or(u8::MAX)) {
        Ok(severity) => list(alloc, [as_tree(severity.value())]),
        Err(error) => refused(alloc, &error),
    }
}

// The addresses and values of registers of a signed number.
fn of_signed(alloc: Global, name: &str, number: i64) -> Result<Value, AllocError> {
    let ("Addr::from", Ok(number)) = (name, i32::try_from(number)) else {
        return unknown(alloc);
    };
    list(
        alloc,
        [
            shown(alloc, &Addr::from(number)),
            shown(alloc, &RegVal::from(number)),
        ],
    )
}

// The addresses and values of registers of a number, each from the widths that hold it.
fn of_unsigned(alloc: Global, number: u64) -> Result<Value, AllocError> {
    let (addr, value) = match u32::try_from(number) {
        Ok(number) => (Addr::from(number), RegVal::from(number)),
        Err(_) => (Addr::from(number as usize), RegVal::from(number as usize)),
    };
    list(
        alloc,
        [
            shown(alloc, &Addr::from(number)),
            shown(alloc, &RegVal::from(number)),
            as_tree(u64::from(addr)),
            as_tree(u64::from(value)),
            as_tree(addr.is_null()),
        ],
    )
}

fn of_one(alloc: Global, name: &str, number: u64) -> Result<Value, AllocError> {
    match name {
        "SampleRand::from_billionths" => of_rand(alloc, &SampleRand::from_billionths(number)),
        "SampleRate" => shown(alloc, &SampleRate(number)),
        "LogSeverityNumber" => of_severity(alloc, number),
        "OrganizationId::from" => shown(alloc, &OrganizationId::from(number)),
        "Addr::from" => of_unsigned(alloc, number),
        _ => known(alloc, of_place(alloc, name, number as usize)),
    }
}

fn said_order(found: Option<Ordering>) -> Result<Value, AllocError> {
    match found {
        Some(order) => as_tree(i64::from(order as i8)),
        None => Ok(Value::Null),
    }
}

// How an IP address of a user compares with an IP address.
fn of_ips(alloc: Global, name: &str, user: &str, ip: &str) -> Result<Value, AllocError> {
    if name != "IpAddress::partial_cmp_ip" {
        return unknown(alloc);
    }
    let (Ok(user), Ok(ip)) = (user.parse::<IpAddress>(), ip.parse::<IpAddr>()) else {
        return none(alloc);
    };
    list(
        alloc,
        [
            as_tree(user.eq_ip(&ip)),
            said_order(user.partial_cmp_ip(&ip)),
            shown(alloc, &IpAddress::from(ip)),
        ],
    )
}

// What a number and a part are made into.
fn of_two(alloc: Global, name: &str, whole: u64, part: u32) -> Result<Value, AllocError> {
    match name {
        "Moment::new" => of_moment(alloc, Moment::new(whole, part)),
        "Decimal" if part < 1_000_000_000 => {
            let billionths = part;
            shown(alloc, &Decimal { whole, billionths })
        }
        _ => unknown(alloc),
    }
}

/// What a list of numbers or texts is made into.
pub fn of_numbers(alloc: Global, name: &str, items: &[Value]) -> Result<Value, AllocError> {
    match items {
        [Value::Number(number)] => match (number.as_u64(), number.as_i64()) {
            (Some(number), _) => of_one(alloc, name, number),
            (None, Some(number)) => of_signed(alloc, name, number),
            (None, None) => unknown(alloc),
        },
        [Value::Number(whole), Value::Number(part)] => {
            let part = part.as_u64().and_then(|part| u32::try_from(part).ok());
            match (whole.as_u64(), part) {
                (Some(whole), Some(part)) => of_two(alloc, name, whole, part),
                _ => unknown(alloc),
            }
        }
        [Value::String(user), Value::String(ip)] => {
            of_ips(alloc, name, user.as_str(), ip.as_str())
        }
        _ => unknown(alloc),
    }
}
