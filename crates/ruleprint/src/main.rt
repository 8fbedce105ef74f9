// Prints which rule of the packed table on standard input prints for an ingredient. The arguments are types, then the ingredient.
#![tactic(auto)]

ghost use Rattle.io.specs.Counts.{IsPrefixLen};

use replay_text::input::read_full;
use std::env::{Env, FillError};
use std::io::{Input, Result};
use std::rt::HostRuntime;

// Puts an argument at the front of an area; returns its length. An argument that is missing or too long is read as empty.
fn arg(rt: &impl Env, i: usize, area: &mut [u8]) -> usize
    ensures { IsPrefixLen result area.new }
{
    rt.arg(i, area).unwrap_or(0)
}

// Whether there is no argument with this number, from 0 on.
fn is_missing(rt: &impl Env, i: usize) -> bool {
    matches!(rt.arg(i, &mut []), Err(FillError::NotPresent))
}

// How many arguments there are, or 1,027 if there are more. The program's name is counted as an argument.
fn arg_count(rt: &impl Env) -> usize {
    for i in 0..1027 {
        if is_missing(rt, i) {
            return i;
        }
    }
    1027
}

// The type that an argument names. An argument that is too long is read as empty, so it is no type.
fn type_at(rt: &impl Env, i: usize) -> Option<u16> {
    let mut word = io::buffer();
    let len = arg(rt, i, &mut word);
    rule_text::arguments::type_of(&word[..len])
}

// The int that an argument is.
fn int_at(rt: &impl Env, i: usize) -> Option<i32> {
    let mut word = io::buffer();
    let len = arg(rt, i, &mut word);
    rule_text::arguments::int_of(&word[..len])
}

// Reads as many types as there is room for, from the first argument on; returns whether all are types.
fn read_types(rt: &impl Env, types: &mut [u16]) -> bool {
    for (i, slot) in types.iter_mut().enumerate() {
        let Some(t) = type_at(rt, i + 1) else {
            return false;
        };
        *slot = t;
    }
    true
}

// Reads until the input ends or is too long, and writes the line for it.
fn reply(rt: &(impl Input + Print), types: &[u16], ingredient: i32) -> Result<()> {
    let mut src = io::large_buffer();
    let len = read_full(rt, &mut src)?;
    let mut text = [0u8; 64];
    let end = rule_text::rule_line(&src[..len], types, ingredient, &mut text);
    rt.write_all(&text[..end])
}

// Replies, if all arguments but the last are types; returns whether they are.
fn reply_for(rt: &(impl Env + Input + Print), types: &mut [u16], ingredient: i32) -> Result<bool> {
    if !read_types(rt, types) {
        return Ok(false);
    }
    reply(rt, types, ingredient)?;
    Ok(true)
}

// Replies, if there are at most 1,024 types and then an int; returns whether there are. The program's name is counted as an argument.
fn has_replied(rt: &(impl Env + Input + Print)) -> Result<bool> {
    let count = arg_count(rt);
    if count < 2 {
        return Ok(false);
    }
    if 1026 < count {
        return Ok(false);
    }
    let Some(ingredient) = int_at(rt, count - 1) else {
        return Ok(false);
    };
    let mut types = [0u16; 1024];
    let n = count - 2;
    reply_for(rt, &mut types[..n], ingredient)
}

// Replies, or says which arguments are expected.
fn main(rt: HostRuntime) -> Result<()> {
    if !has_replied(&rt)? {
        rt.write_all(b"usage: ruleprint TYPE.. INGREDIENT\n")?;
    }
    Ok(())
}
