//! The commands.
ghost use Rattle.std.specs.Prelude.{◌≡◌, IfOk, map};
ghost use Rattle.std.specs.Char.{to_ascii_lowercase};
ghost use Rattle.example_redis.specs.Commands.{takes, verb, verb_name, verb_of_connection};

use std::alloc::{AllocError, Global};

/// What a request asks for, by its first word.
#[derive(Debug, Clone, Copy, PartialEq, Eq)]
pub enum Verb {
    /// `PING`, or `PING text`: the text, or `PONG`.
    Ping,
    /// `ECHO text`: the text.
    Echo,
    /// `SET key value`: that the key has this value.
    Set,
    /// `GET key`: the value of the key.
    Get,
    /// `DEL key ..`: that these keys have no value.
    Delete,
    /// `DBSIZE`: how many keys have a value.
    Size,
    /// `SELECT 0`: that the keys are those of the one store there is.
    Select,
    /// `COMMAND`: nothing is told of the commands, but how many they are by `COMMAND COUNT`.
    Describe,
    /// `CONFIG GET`: that there is nothing to configure.
    Config,
    /// `CLIENT SETNAME` and `CLIENT SETINFO`: what the client is called.
    Client,
    /// `MULTI`: that a transaction begins.
    Multi,
    /// `EXEC`: that a transaction is performed.
    Exec,
    /// `DISCARD`: that a transaction is given up.
    Discard,
    /// `QUIT`: that the session ends.
    Quit,
    /// `POST` and `HOST:`, which begin a line of a web page's request. The session ends.
    Web,
    /// Any other word.
    Unknown,
}

impl Verb {
    /// Returns the command that a word names, whatever the case of its letters.
    pub fn parse(alloc: Global, word: &[u8]) -> Result<Verb, AllocError>
        ensures { IfOk result (λ v. v ≡ verb (map to_ascii_lowercase word.now)) }
    {
        let lower = lowercase(alloc, word)?;
        Ok(Verb::named(lower.as_slice()))
    }

    // Returns the command of this name.
    fn named(name: &[u8]) -> Verb
        ensures { result ≡ verb name.now }
    {
        if name == b"ping".as_slice() {
            return Verb::Ping;
        }
        if name == b"echo".as_slice() {
            return Verb::Echo;
        }
        if name == b"set".as_slice() {
            return Verb::Set;
        }
        if name == b"get".as_slice() {
            return Verb::Get;
        }
        if name == b"del".as_slice() {
            return Verb::Delete;
        }
        if name == b"dbsize".as_slice() {
            return Verb::Size;
        }
        if name == b"quit".as_slice() {
            return Verb::Quit;
        }
        if name == b"post".as_slice() || name == b"host:".as_slice() {
            return Verb::Web;
        }
        Verb::of_connection(name)
    }

    // Returns the command of this name, of those that are about the connection.
    fn of_connection(name: &[u8]) -> Verb
        ensures { result ≡ verb_of_connection name.now }
    {
        if name == b"select".as_slice() {
            return Verb::Select;
        }
        if name == b"command".as_slice() {
            return Verb::Describe;
        }
        if name == b"config".as_slice() {
            return Verb::Config;
        }
        if name == b"client".as_slice() {
            return Verb::Client;
        }
        if name == b"multi".as_slice() {
            return Verb::Multi;
        }
        if name == b"exec".as_slice() {
            return Verb::Exec;
        }
        if name == b"discard".as_slice() {
            return Verb::Discard;
        }
        Verb::Unknown
    }

    /// Returns whether a command takes this many words behind its name.
    pub fn takes(self, count: usize) -> bool
        ensures { result ≡ takes self count }
    {
        match self {
            Verb::Ping => count < 2,
            Verb::Echo => count == 1,
            Verb::Set => 1 < count,
            Verb::Get => count == 1,
            Verb::Delete => 0 < count,
            Verb::Size => count == 0,
            Verb::Select => count == 1,
            Verb::Config | Verb::Client => 0 < count,
            Verb::Multi | Verb::Exec | Verb::Discard => count == 0,
            Verb::Describe | Verb::Quit | Verb::Web | Verb::Unknown => true,
        }
    }

    /// Returns the name of a command.
    pub fn name(self) -> &'static [u8]
        ensures { result.now ≡ verb_name self }
    {
        match self {
            Verb::Ping => b"ping",
            Verb::Echo => b"echo",
            Verb::Set => b"set",
            Verb::Get => b"get",
            Verb::Delete => b"del",
            Verb::Size => b"dbsize",
            Verb::Select => b"select",
            Verb::Describe => b"command",
            Verb::Config => b"config",
            Verb::Client => b"client",
            Verb::Multi => b"multi",
            Verb::Exec => b"exec",
            Verb::Discard => b"discard",
            Verb::Quit => b"quit",
            Verb::Web | Verb::Unknown => b"",
        }
    }
}

/// Copies a word in lower case.
pub fn lowercase(alloc: Global, word: &[u8]) -> Result<Vec<u8>, AllocError>
    ensures { IfOk result (λ v. v.items ≡ map to_ascii_lowercase word.now) }
{
    word.iter()
        .map(|byte| byte.to_ascii_lowercase())
        .collect(alloc)
}
