//! What is done with a request.
ghost use Rattle.std.specs.Prelude.{◌≡◌, ℕ, List, [], IfOk, Ok, codes, false, length, true};
ghost use Rattle.example_redis.specs.Commands.{IsDone, Said, answer, answer_or_refuse, does, one_line, perform, refuse_in};
ghost use Rattle.example_redis.specs.Commands.{said, set_done, shown_words, takes, texts, unknown_text, wrong_count};
ghost use Rattle.example_redis.specs.Replies.{IsEncodable};
ghost use Rattle.example_redis.specs.Store.{HeldValues, held};
ghost use Rattle.example_redis.specs.declared.verb.Verb.TheVariants.{Delete, Echo, Get, Multi, Ping, Set, Size};

use crate::connection::{configure, describe, discard, exec, introduce, select};
use crate::reply::Reply;
use crate::store::Store;
use crate::verb::Verb;
use std::alloc::{AllocError, Global};

/// How many bytes are shown of an unknown command's name, and of the words behind it.
const SHOWN: usize = 128;

/// What came of a request.
#[derive(Debug, Drop)]
pub struct Outcome {
    /// The reply. A request without words has none.
    pub reply: Option<Reply>,
    /// Whether the session goes on.
    pub goes_on: bool,
}

impl Store {
    /// Does what the words of a request ask for.
    ///
    /// # Errors
    ///
    /// An allocation failed; what is held stays as it was.
    pub fn perform(&mut self, words: &[Vec<u8>]) -> Result<Outcome, AllocError>
        ensures { IsDone (held self.old) (perform (held self.old) (texts words.now)) result (held self.new) }
    {
        if words.is_empty() {
            return Ok(Outcome {
                reply: None,
                goes_on: true,
            });
        }
        let name = words[0].as_slice();
        let verb = Verb::parse(self.alloc(), name)?;
        self.answer_or_refuse(name, verb, &words[1..])
    }

    // Does what a command asks for, unless it belongs to a transaction that is refused.
    fn answer_or_refuse(
        &mut self,
        name: &[u8],
        verb: Verb,
        words: &[Vec<u8>],
    ) -> Result<Outcome, AllocError>
        ensures { IsDone (held self.old) (answer_or_refuse (held self.old) name.now verb (texts words.now)) result (held self.new) }
    {
        if self.refuses() {
            return self.refuse_in_transaction(verb);
        }
        self.answer(name, verb, words)
    }

    // Refuses a command of a transaction that is refused.
    fn refuse_in_transaction(&mut self, verb: Verb) -> Result<Outcome, AllocError>
        ensures { IsDone (held self.old) (refuse_in (held self.old) verb) result (held self.new) }
    {
        match verb {
            Verb::Exec => {
                let text = b"EXECABORT Transaction discarded because of previous errors.";
                let outcome = error(self.alloc(), text)?;
                self.set_refusing(false);
                Ok(outcome)
            }
            Verb::Discard => {
                self.set_refusing(false);
                Ok(reply(Reply::Simple("OK")))
            }
            Verb::Quit => Ok(quit()),
            Verb::Web => Ok(hang_up()),
            _ => error(self.alloc(), b"ERR not performed, since MULTI was refused"),
        }
    }

    // Does what a command asks for, or replies that it does not take so many words.
    fn answer(&mut self, name: &[u8], verb: Verb, words: &[Vec<u8>]) -> Result<Outcome, AllocError>
        ensures { IsDone (held self.old) (answer (held self.old) name.now verb (texts words.now)) result (held self.new) }
    {
        if !verb.takes(words.len()) {
            return wrong_count(self.alloc(), verb);
        }
        self.does(name, verb, words)
    }

    // Does what a command asks for, with a number of words that it takes.
    fn does(&mut self, name: &[u8], verb: Verb, words: &[Vec<u8>]) -> Result<Outcome, AllocError>
        requires { takes verb (length words.now) ≡ true }
        ensures { IsDone (held self.old) (does (held self.old) name.now verb (texts words.now)) result (held self.new) }
    {
        match verb {
            Verb::Ping => ping(self.alloc(), words),
            Verb::Echo => echo(self.alloc(), words),
            Verb::Set => self.answer_set(words),
            Verb::Get => self.answer_get(words),
            Verb::Delete => self.answer_delete(words),
            Verb::Size => self.answer_size(words),
            Verb::Select => select(self.alloc(), words),
            Verb::Describe => describe(self.alloc(), words),
            Verb::Config => configure(self.alloc(), words),
            Verb::Client => introduce(self.alloc(), words),
            Verb::Multi => self.begin_transaction(words),
            Verb::Exec => exec(self.alloc(), words),
            Verb::Discard => discard(self.alloc(), words),
            Verb::Quit => Ok(quit()),
            Verb::Web => Ok(hang_up()),
            Verb::Unknown => unknown(self.alloc(), name, words),
        }
    }

    // Refuses a transaction.
    fn begin_transaction(&mut self, words: &[Vec<u8>]) -> Result<Outcome, AllocError>
        requires { takes Multi (length words.now) ≡ true }
        ensures { (name : List ℕ) → IsDone (held self.old) (does (held self.old) name Multi (texts words.now)) result (held self.new) }
    {
        let text = b"ERR MULTI is not supported: nothing is performed up to EXEC or DISCARD";
        let outcome = error(self.alloc(), text)?;
        self.set_refusing(true);
        Ok(outcome)
    }

    fn answer_set(&mut self, words: &[Vec<u8>]) -> Result<Outcome, AllocError>
        requires { takes Set (length words.now) ≡ true }
        ensures { (name : List ℕ) → IsDone (held self.old) (does (held self.old) name Set (texts words.now)) result (held self.new) }
    {
        if words.len() > 2 {
            return error(self.alloc(), b"ERR syntax error");
        }
        self.set_or_refuse(&words[0], &words[1])
    }

    // Holds a value at a key, if there is room.
    fn set_or_refuse(&mut self, key: &[u8], value: &[u8]) -> Result<Outcome, AllocError>
        ensures { IsDone (held self.old) (set_done (held self.old) key.now value.now) result (held self.new) }
    {
        if self.set(key, value)? {
            return Ok(reply(Reply::Simple("OK")));
        }
        error(
            self.alloc(),
            b"OOM command not allowed when used memory > 'maxmemory'.",
        )
    }

    fn answer_get(&self, words: &[Vec<u8>]) -> Result<Outcome, AllocError>
        requires { takes Get (length words.now) ≡ true }
        ensures { (name : List ℕ) → IsDone (held self.now) (does (held self.now) name Get (texts words.now)) result (held self.now) }
    {
        match self.get(&words[0]) {
            Some(value) => bulk(self.alloc(), value),
            None => Ok(reply(Reply::Null)),
        }
    }

    fn answer_delete(&mut self, words: &[Vec<u8>]) -> Result<Outcome, AllocError>
        requires { takes Delete (length words.now) ≡ true }
        ensures { (name : List ℕ) → IsDone (held self.old) (does (held self.old) name Delete (texts words.now)) result (held self.new) }
    {
        let mut count = 0usize;
        for key in words {
            count += usize::from(self.delete(key));
        }
        Ok(reply(Reply::Integer(count as i64)))
    }

    fn answer_size(&self, words: &[Vec<u8>]) -> Result<Outcome, AllocError>
        requires { takes Size (length words.now) ≡ true }
        ensures { (name : List ℕ) → IsDone (held self.now) (does (held self.now) name Size (texts words.now)) result (held self.now) }
    {
        Ok(reply(Reply::Integer(self.len() as i64)))
    }
}

/// Returns an outcome with a reply, after which the session goes on.
pub fn reply(reply: Reply) -> Outcome
    ensures reply { result.reply ≡ Some reply }
    ensures goes_on { result.goes_on ≡ true }
{
    Outcome {
        reply: Some(reply),
        goes_on: true,
    }
}

// Returns the outcome of `QUIT`.
fn quit() -> Outcome
    ensures { (h : HeldValues) → IsDone h (Said.simple (codes "OK"), false, h) (Ok result) h }
{
    last(Some(Reply::Simple("OK")))
}

// Returns an outcome without a reply, after which the session ends.
fn hang_up() -> Outcome
    ensures { (h : HeldValues) → IsDone h (Said.silent, false, h) (Ok result) h }
{
    last(None)
}

// Returns an outcome with this reply, if there is one, after which the session ends.
fn last(reply: Option<Reply>) -> Outcome
    ensures reply { result.reply ≡ reply }
    ensures goes_on { result.goes_on ≡ false }
{
    Outcome {
        reply,
        goes_on: false,
    }
}

fn ping(alloc: Global, words: &[Vec<u8>]) -> Result<Outcome, AllocError>
    requires { takes Ping (length words.now) ≡ true }
    ensures { (h : HeldValues) (name : List ℕ) → IsDone h (does h name Ping (texts words.now)) result h }
{
    if words.is_empty() {
        return Ok(reply(Reply::Simple("PONG")));
    }
    bulk(alloc, &words[0])
}

fn echo(alloc: Global, words: &[Vec<u8>]) -> Result<Outcome, AllocError>
    requires { takes Echo (length words.now) ≡ true }
    ensures { (h : HeldValues) (name : List ℕ) → IsDone h (does h name Echo (texts words.now)) result h }
{
    bulk(alloc, &words[0])
}

// Replies some bytes.
fn bulk(alloc: Global, bytes: &[u8]) -> Result<Outcome, AllocError>
    ensures { (h : HeldValues) → IsDone h (Said.bulk bytes.now, true, h) result h }
{
    Ok(reply(Reply::Bulk(Vec::from_slice(alloc, bytes)?)))
}

// Replies an error.
fn error(alloc: Global, text: &[u8]) -> Result<Outcome, AllocError>
    ensures { (h : HeldValues) → IsDone h (Said.wrong text.now, true, h) result h }
{
    Ok(reply(Reply::Error(Vec::from_slice(alloc, text)?)))
}

// Replies that the number of words is wrong.
fn wrong_count(alloc: Global, verb: Verb) -> Result<Outcome, AllocError>
    ensures { (h : HeldValues) → IsDone h (wrong_count verb, true, h) result h }
{
    let mut text = Vec::from_slice(alloc, b"ERR wrong number of arguments for '")?;
    text.extend_from_slice(verb.name())?;
    text.extend_from_slice(b"' command")?;
    Ok(reply(Reply::Error(text)))
}

// Replies that a word names no command.
fn unknown(alloc: Global, name: &[u8], words: &[Vec<u8>]) -> Result<Outcome, AllocError>
    ensures { (h : HeldValues) → IsDone h (Said.wrong (unknown_text name.now (texts words.now)), true, h) result h }
{
    let mut text = Vec::from_slice(alloc, b"ERR unknown command '")?;
    text.extend_from_slice(&name[..name.len().min(SHOWN)])?;
    text.extend_from_slice(b"', with args beginning with: ")?;
    text.extend_from_slice(shown_words(alloc, words)?.as_slice())?;
    Ok(reply(Reply::Error(one_line(alloc, text.as_slice())?)))
}

// Returns what is shown of the words behind an unknown name: each in quotes, until so many bytes are shown.
fn shown_words(alloc: Global, words: &[Vec<u8>]) -> Result<Vec<u8>, AllocError>
    ensures { IfOk result (λ v. v.items ≡ shown_words [] (texts words.now)) }
{
    let mut shown = Vec::new(alloc);
    for word in words {
        if shown.len() >= SHOWN {
            return Ok(shown);
        }
        let room = SHOWN - shown.len();
        shown.push(b'\'')?;
        shown.extend_from_slice(&word[..word.len().min(room)])?;
        shown.extend_from_slice(b"' ")?;
    }
    Ok(shown)
}

// Copies a text, with a space for each carriage return and line feed.
fn one_line(alloc: Global, text: &[u8]) -> Result<Vec<u8>, AllocError>
    ensures { IfOk result (λ v. v.items ≡ one_line text.now) }
{
    text.iter()
        .map(|byte| if *byte == b'\r' || *byte == b'\n' {
            b' '
        } else {
            *byte
        })
        .collect(alloc)
}

/// A law of the commands: an encoder that allows an array refuses no reply.
pub fn replies_are_encoded()
    ensures { (h : HeldValues) (words : List (List ℕ)) (reply : Reply) → said (Some reply) ≡ (perform h words).0 → IsEncodable 1 reply }
{}
