//! Steps through a script by orders, which are read line by line.

ghost use Rattle.std.specs.Prelude.{◌≡◌, false};

use crate::look::say_views;
use crate::orders::{Order, order_of, read_line};
use crate::say::{say_command, say_outcome};
use crate::walk::Walk;
use ed_types::{Bytes, Command};
use script_ends::{RunFault, Sink, Source, write_all};
use std::alloc::{AllocError, Global};

/// The text printed for a line that is no order.
const ORDERS: &str =
    "n next, b back, g N go to N, t text, l lines, h history, q quit: each on a line of its own\n";

/// Appends how many commands are done.
fn say_place(out: &mut String, walk: &Walk<'_>) -> Result<(), AllocError> {
    let done = walk.done();
    let count = walk.count();
    write!(out, "{done} of {count} commands are done\n")
}

/// Performs the next command, and appends a description of it and of its outcome.
fn say_next(out: &mut String, walk: &mut Walk<'_>) -> Result<(), AllocError> {
    let Some((command, outcome)) = walk.go_on()? else {
        return say_place(out, walk);
    };
    let done = walk.done();
    write!(out, "command {done}: ")?;
    say_command(out, command)?;
    out.push_str("\n")?;
    say_outcome(out, &outcome)
}

/// Goes to where `to` commands are done, if the script has as many, and appends how many are done.
fn say_moved(out: &mut String, walk: &mut Walk<'_>, to: Option<usize>) -> Result<(), AllocError> {
    match to {
        Some(to) if to <= walk.count() => walk.go_to(to)?,
        _ => out.push_str("there is no such place; ")?,
    }
    say_place(out, walk)
}

/// Performs an order, and appends its output. Returns whether to continue.
fn perform_order(out: &mut String, walk: &mut Walk<'_>, order: Order) -> Result<bool, AllocError> {
    match order {
        Order::Next => say_next(out, walk)?,
        Order::Back => {
            let before = walk.done().checked_sub(1);
            say_moved(out, walk, before)?;
        }
        Order::GoTo(to) => say_moved(out, walk, Some(to))?,
        Order::Show(look) => say_views(out, walk, look)?,
        Order::Quit => return Ok(false),
        Order::Unknown => out.push_str(ORDERS)?,
    }
    Ok(true)
}

/// Reads orders and performs them, until one of them ends the walk or there are no more.
fn follow<C: Source, W: Sink>(
    alloc: Global,
    walk: &mut Walk<'_>,
    orders: &mut C,
    sink: &mut W,
) -> Result<(), RunFault>
    requires { W.has_failed sink.old ≡ false }
{
    let mut line = Vec::new(alloc);
    let mut told = String::new(alloc);
    'orders: for _ in 0..u64::MAX {
        if !read_line(orders, &mut line)? {
            break 'orders;
        }
        told.clear();
        if !perform_order(&mut told, walk, order_of(&line))? {
            break 'orders;
        }
        write_all(sink, told.as_str().as_bytes())?;
    }
    Ok(())
}

/// Performs orders from before the first command on, in a new session.
fn follow_from_start<C: Source, W: Sink>(
    alloc: Global,
    commands: &[Command],
    files: &[Bytes],
    orders: &mut C,
    sink: &mut W,
) -> Result<(), RunFault>
    requires { W.has_failed sink.old ≡ false }
{
    let mut walk = Walk::new(alloc, commands, files);
    follow(alloc, &mut walk, orders, sink)
}

/// Steps through commands with these files by the orders from a source, and writes the output. Returns 0.
///
/// # Errors
///
/// `Script` if an allocation fails, `Read` if the orders cannot be read, and `Write` if a write failed or took no byte.
pub fn step_commands<C: Source, W: Sink>(
    alloc: Global,
    commands: &[Command],
    files: &[Bytes],
    orders: &mut C,
    sink: &mut W,
) -> Result<u64, RunFault>
    requires { W.has_failed sink.old ≡ false }
{
    follow_from_start(alloc, commands, files, orders, sink)?;
    Ok(0)
}
