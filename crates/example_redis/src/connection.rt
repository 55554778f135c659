//! Commands about the connection.
ghost use Rattle.std.specs.Prelude.{◌≡◌, ℕ, List, IfOk, Some, length, true};
ghost use Rattle.example_redis.specs.Commands.{IsDone, Said, configured, described, does, introduced, said, selected, takes, texts};
ghost use Rattle.example_redis.specs.Store.{HeldValues};
ghost use Rattle.example_redis.specs.declared.verb.Verb.TheVariants.{Client, Config, Describe, Discard, Exec, Select};

use crate::commands::{Outcome, reply};
use crate::reply::Reply;
use crate::verb::lowercase;
use std::alloc::{AllocError, Global};

/// How many commands the server has.
const COMMANDS: i64 = 14;

/// Does `SELECT index`.
pub fn select(alloc: Global, words: &[Vec<u8>]) -> Result<Outcome, AllocError>
    requires { takes Select (length words.now) ≡ true }
    ensures { (h : HeldValues) (name : List ℕ) → IsDone h (does h name Select (texts words.now)) result h }
{
    Ok(reply(selected(alloc, &words[0])?))
}

// Returns whether there is a store of this index.
fn selected(alloc: Global, index: &[u8]) -> Result<Reply, AllocError>
    ensures { IfOk result (λ reply. said (Some reply) ≡ selected index.now) }
{
    if index == b"0".as_slice() {
        return Ok(Reply::Simple("OK"));
    }
    complaint(alloc, b"ERR DB index is out of range")
}

/// Does `COMMAND`.
pub fn describe(alloc: Global, words: &[Vec<u8>]) -> Result<Outcome, AllocError>
    ensures { (h : HeldValues) (name : List ℕ) → IsDone h (does h name Describe (texts words.now)) result h }
{
    if words.is_empty() {
        return Ok(reply(no_items(alloc)));
    }
    let topic = lowercase(alloc, &words[0])?;
    Ok(reply(told_of(alloc, topic.as_slice())))
}

// Returns what `COMMAND` says of a topic.
fn told_of(alloc: Global, topic: &[u8]) -> Reply
    ensures { said (Some result) ≡ described topic.now }
{
    if topic == b"count".as_slice() {
        return Reply::Integer(COMMANDS);
    }
    no_items(alloc)
}

/// Does `CONFIG`.
pub fn configure(alloc: Global, words: &[Vec<u8>]) -> Result<Outcome, AllocError>
    requires { takes Config (length words.now) ≡ true }
    ensures { (h : HeldValues) (name : List ℕ) → IsDone h (does h name Config (texts words.now)) result h }
{
    let what = lowercase(alloc, &words[0])?;
    Ok(reply(configured(alloc, what.as_slice())?))
}

// Returns what is configured.
fn configured(alloc: Global, what: &[u8]) -> Result<Reply, AllocError>
    ensures { IfOk result (λ reply. said (Some reply) ≡ configured what.now) }
{
    if what == b"get".as_slice() {
        return Ok(no_items(alloc));
    }
    complaint(alloc, b"ERR only CONFIG GET is supported")
}

/// Does `CLIENT`.
pub fn introduce(alloc: Global, words: &[Vec<u8>]) -> Result<Outcome, AllocError>
    requires { takes Client (length words.now) ≡ true }
    ensures { (h : HeldValues) (name : List ℕ) → IsDone h (does h name Client (texts words.now)) result h }
{
    let what = lowercase(alloc, &words[0])?;
    Ok(reply(introduced(alloc, what.as_slice())?))
}

// Returns whether a client can tell this of itself.
fn introduced(alloc: Global, what: &[u8]) -> Result<Reply, AllocError>
    ensures { IfOk result (λ reply. said (Some reply) ≡ introduced what.now) }
{
    if what == b"setname".as_slice() || what == b"setinfo".as_slice() {
        return Ok(Reply::Simple("OK"));
    }
    complaint(
        alloc,
        b"ERR only CLIENT SETNAME and CLIENT SETINFO are supported",
    )
}

/// Does `EXEC` outside of a transaction.
pub fn exec(alloc: Global, words: &[Vec<u8>]) -> Result<Outcome, AllocError>
    requires { takes Exec (length words.now) ≡ true }
    ensures { (h : HeldValues) (name : List ℕ) → IsDone h (does h name Exec (texts words.now)) result h }
{
    Ok(reply(complaint(alloc, b"ERR EXEC without MULTI")?))
}

/// Does `DISCARD` outside of a transaction.
pub fn discard(alloc: Global, words: &[Vec<u8>]) -> Result<Outcome, AllocError>
    requires { takes Discard (length words.now) ≡ true }
    ensures { (h : HeldValues) (name : List ℕ) → IsDone h (does h name Discard (texts words.now)) result h }
{
    Ok(reply(complaint(alloc, b"ERR DISCARD without MULTI")?))
}

// Returns an error.
fn complaint(alloc: Global, text: &[u8]) -> Result<Reply, AllocError>
    ensures { IfOk result (λ reply. said (Some reply) ≡ Said.wrong text.now) }
{
    Ok(Reply::Error(Vec::from_slice(alloc, text)?))
}

// Returns an array without items.
fn no_items(alloc: Global) -> Reply
    ensures { said (Some result) ≡ Said.array 0 }
{
    Reply::Array(Vec::new(alloc))
}
