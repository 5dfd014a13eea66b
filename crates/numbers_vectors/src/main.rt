// Runs the number and timeout rules over values at the ends of their ranges, and prints a line for each.
// The expected lines are made by tests/numbers/make.py.
#![tactic(auto)]

use ft_number::{Form, FtNumber, Proposal, Timeout, TurnError};
use std::io;
use std::io::Write;

// Around 0, the window of 64, half of the circle, and its end.
const EDGES: [u32; 11] = [
    0, 1, 2, 64, 65, 2147483646, 2147483647, 2147483648, 2147483649, 4294967294, 4294967295,
];

// R and I of the acknowledgements: nothing issued, from "none", over the end of the circle, a full window, nothing outstanding.
const RELEASED: [u32; 6] = [0, 0, 4294967294, 1, 4294967295, 5];

const ISSUED: [u32; 6] = [0, 5, 1, 65, 64, 5];

// 0 is for ever; seconds and milliseconds, the most that each form says in milliseconds.
const TIMEOUTS: [u32; 6] = [0, 1, 5, 30000, 65535000, 4294967295];

fn text(out: &mut impl Write, s: &[u8]) -> io::Result<()> {
    out.write_all(s)
}

fn number(out: &mut impl Write, n: u32) -> io::Result<()> {
    write!(out, " {n}")
}

fn count(out: &mut impl Write, n: Option<u32>) -> io::Result<()> {
    match n {
        Some(k) => number(out, k),
        None => text(out, b" unreachable"),
    }
}

fn decision(out: &mut impl Write, a: Option<u32>) -> io::Result<()> {
    match a {
        Some(k) => {
            text(out, b" releases")?;
            number(out, k)
        }
        None => text(out, b" sequence error"),
    }
}

// A signed number.
fn signed(out: &mut impl Write, z: i32) -> io::Result<()> {
    write!(out, " {z}")
}

fn turn(out: &mut impl Write, t: Result<u32, TurnError>) -> io::Result<()> {
    match t {
        Ok(k) => {
            text(out, b" left out")?;
            number(out, k)
        }
        Err(TurnError::OutOfTurn) => text(out, b" out of turn"),
        Err(TurnError::ZeroNumber) => text(out, b" zero number"),
    }
}

fn way(out: &mut impl Write, d: Option<i32>) -> io::Result<()> {
    match d {
        Some(z) => signed(out, z),
        None => text(out, b" refused"),
    }
}

// The start of a line: a rule's name and two numbers.
fn start(out: &mut impl Write, name: &[u8], a: u32, b: u32) -> io::Result<()> {
    text(out, name)?;
    number(out, a)?;
    number(out, b)
}

fn end(out: &mut impl Write) -> io::Result<()> {
    text(out, b"\n")
}

fn steps(out: &mut impl Write, a: u32, b: u32) -> io::Result<()> {
    start(out, b"steps", a, b)?;
    count(out, ft_number::steps_between(FtNumber(a), FtNumber(b)))?;
    end(out)
}

fn distance(out: &mut impl Write, a: u32, b: u32) -> io::Result<()> {
    start(out, b"distance", a, b)?;
    way(out, ft_number::signed_distance(FtNumber(a), FtNumber(b)))?;
    end(out)
}

fn advance(out: &mut impl Write, a: u32, b: u32) -> io::Result<()> {
    start(out, b"advance", a, b)?;
    number(out, ft_number::advance(FtNumber(a), b).0)?;
    end(out)
}

// The next number, on an unresumed connection and on a resumed one.
fn next(out: &mut impl Write, a: u32, b: u32) -> io::Result<()> {
    start(out, b"next", a, b)?;
    turn(out, ft_number::judge_turn(FtNumber(a), FtNumber(b), false))?;
    end(out)?;
    start(out, b"next resumed", a, b)?;
    turn(out, ft_number::judge_turn(FtNumber(a), FtNumber(b), true))?;
    end(out)
}

fn successor(out: &mut impl Write, a: u32) -> io::Result<()> {
    text(out, b"successor")?;
    number(out, a)?;
    number(out, ft_number::successor(FtNumber(a)).0)?;
    end(out)
}

// One number: its successor, and with each edge the rules of a pair.
fn edge(out: &mut impl Write, a: u32) -> io::Result<()> {
    successor(out, a)?;
    for j in 0..11 {
        steps(out, a, EDGES[j])?;
        distance(out, a, EDGES[j])?;
        advance(out, a, EDGES[j])?;
        next(out, a, EDGES[j])?;
    }
    Ok(())
}

fn acknowledgement(out: &mut impl Write, r: u32, i: u32, a: u32) -> io::Result<()> {
    start(out, b"acknowledge", r, i)?;
    number(out, a)?;
    decision(
        out,
        ft_number::acknowledge(FtNumber(r), FtNumber(i), FtNumber(a)),
    )?;
    end(out)
}

// Each edge as an acknowledgement of one window.
fn window(out: &mut impl Write, r: u32, i: u32) -> io::Result<()> {
    for j in 0..11 {
        acknowledgement(out, r, i, EDGES[j])?;
    }
    Ok(())
}

fn timeout(out: &mut impl Write, a: u32, b: u32) -> io::Result<()> {
    start(out, b"lesser timeout", a, b)?;
    number(out, ft_number::lesser_timeout(a, b))?;
    end(out)
}

fn timeouts(out: &mut impl Write, a: u32) -> io::Result<()> {
    for j in 0..6 {
        timeout(out, a, TIMEOUTS[j])?;
    }
    Ok(())
}

// A timeout as its form says it.
fn said(out: &mut impl Write, t: Timeout) -> io::Result<()> {
    match t {
        Timeout::Seconds(s) => {
            text(out, b" seconds")?;
            number(out, s as u32)
        }
        Timeout::Milliseconds(n) => {
            text(out, b" milliseconds")?;
            number(out, n)
        }
    }
}

// What is proposed, and that in milliseconds.
fn proposal(out: &mut impl Write, p: Proposal) -> io::Result<()> {
    let t = ft_number::proposed_timeout(p);
    text(out, b"proposed")?;
    said(out, t)?;
    text(out, b" is")?;
    number(out, ft_number::milliseconds(t))?;
    end(out)
}

// The default of each form, and each form's proposals at the ends of its range.
fn proposals(out: &mut impl Write) -> io::Result<()> {
    proposal(out, Proposal::NotGiven(Form::Draft))?;
    proposal(out, Proposal::Given(Timeout::Seconds(0)))?;
    proposal(out, Proposal::Given(Timeout::Seconds(5)))?;
    proposal(out, Proposal::Given(Timeout::Seconds(65535)))?;
    proposal(out, Proposal::NotGiven(Form::Published))?;
    proposal(out, Proposal::Given(Timeout::Milliseconds(0)))?;
    proposal(out, Proposal::Given(Timeout::Milliseconds(5)))?;
    proposal(out, Proposal::Given(Timeout::Milliseconds(4294967295)))
}

fn edges(out: &mut impl Write) -> io::Result<()> {
    for i in 0..11 {
        edge(out, EDGES[i])?;
    }
    Ok(())
}

// The tables of six: each window, and each timeout with each.
fn tables(out: &mut impl Write) -> io::Result<()> {
    for i in 0..6 {
        window(out, RELEASED[i], ISSUED[i])?;
        timeouts(out, TIMEOUTS[i])?;
    }
    Ok(())
}

fn main(rt: HostRuntime) -> io::Result<()> {
    let mut out = rt.stdout();
    edges(&mut out)?;
    tables(&mut out)?;
    proposals(&mut out)
}
