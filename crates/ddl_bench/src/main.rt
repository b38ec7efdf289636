//! Runs one part of the compiler on a large input, so that the scripts in bench/ can time it.
#![tactic(auto)]

mod classes;
mod declarations;
mod equations;
mod layouts;
mod tokens;

use crate::equations::{Link, Order, Towers, equal_towers, tower};
use ddl_sample_groups::Uses;
use std::alloc::Global;
use std::io::{Error, ErrorKind};
use std::{env, fs, io};

/// The height of a tower of types, or of two that are made equal.
fn solved(alloc: Global, towers: Towers, link: Link, order: Order, height: u32) -> io::Result<u32> {
    if height >= 1 << 24 {
        return Err(Error::from(ErrorKind::InvalidInput));
    }
    let height = match towers {
        Towers::One => tower(alloc, link, order, height),
        Towers::TwoEqual => equal_towers(alloc, link, order, height),
    };
    match height {
        Ok(height) => Ok(height),
        Err(_) => Err(Error::from(ErrorKind::Other)),
    }
}

/// How often a layout is checked, since once takes less time than a program needs to start.
const CHECKS: u32 = 100;

/// The width of a layout with so many free bits before its choices or inside of them.
fn checked(alloc: Global, before: u32, inside: u32) -> io::Result<u32> {
    if before == 0 || inside == 0 {
        return Err(Error::from(ErrorKind::InvalidInput));
    }
    match layouts::width_of_two(alloc, CHECKS, before, inside) {
        Ok(width) => Ok(width),
        Err(_) => Err(Error::from(ErrorKind::OutOfMemory)),
    }
}

/// The width of a layout with so many free bits inside of choices that stand a layout deeper, or
/// 0 where `other` is an end of both.
fn checked_deeper(alloc: Global, inside: u32, other: u128) -> io::Result<u32> {
    if inside == 0 {
        return Err(Error::from(ErrorKind::InvalidInput));
    }
    match layouts::width_of_two_deeper(alloc, CHECKS, inside, other) {
        Ok(width) => Ok(width),
        Err(_) => Err(Error::from(ErrorKind::OutOfMemory)),
    }
}

/// The number of groups of so many declarations.
fn grouped(alloc: Global, uses: Uses, count: u32) -> io::Result<usize> {
    match declarations::count_of(alloc, uses, count) {
        Ok(groups) => Ok(groups),
        Err(_) => Err(Error::from(ErrorKind::OutOfMemory)),
    }
}

fn main(rt: HostRuntime) -> io::Result<()> {
    let alloc = rt.alloc();
    let mut words = env::args(&rt)?.skip(1);
    let (Some(part), Some(file), Some(number)) = (words.next(), words.next(), words.next()) else {
        return Err(Error::from(ErrorKind::InvalidInput));
    };
    let Ok(number) = number.as_str().parse::<u32>() else {
        return Err(Error::from(ErrorKind::InvalidInput));
    };
    let text = fs::read(&rt, file.as_str())?;
    match part.as_str() {
        "bits-before" => println!(rt; "{}", checked(alloc, number, 1)?),
        "bits-inside" => println!(rt; "{}", checked(alloc, 1, number)?),
        "bits-deeper" => println!(rt; "{}", checked_deeper(alloc, number, 2)?),
        "bits-shared" => println!(rt; "{}", checked_deeper(alloc, number, 1)?),
        "groups-chain" => println!(rt; "{}", grouped(alloc, Uses::Chain, number)?),
        "groups-ring" => println!(rt; "{}", grouped(alloc, Uses::Ring, number)?),
        "groups-nothing" => println!(rt; "{}", grouped(alloc, Uses::Nothing, number)?),
        "class" => println!(rt; "{}", classes::letters_before_a_stop(&text, number)),
        "lex" => println!(rt; "{}", tokens::count(alloc, &text)?),
        "chain" => println!(rt;
            "{}",
            solved(alloc, Towers::One, Link::Array, Order::Downward, number)?
        ),
        "chain-up" => println!(rt;
            "{}",
            solved(alloc, Towers::One, Link::Array, Order::Upward, number)?
        ),
        "doublings" => println!(rt;
            "{}",
            solved(alloc, Towers::One, Link::Map, Order::Downward, number)?
        ),
        "doublings-up" => println!(rt;
            "{}",
            solved(alloc, Towers::One, Link::Map, Order::Upward, number)?
        ),
        "equal-towers" => println!(rt;
            "{}",
            solved(alloc, Towers::TwoEqual, Link::Map, Order::Downward, number)?
        ),
        "equal-towers-up" => println!(rt;
            "{}",
            solved(alloc, Towers::TwoEqual, Link::Map, Order::Upward, number)?
        ),
        _ => Err(Error::from(ErrorKind::InvalidInput)),
    }
}
