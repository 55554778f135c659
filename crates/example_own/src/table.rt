//! A reader that says what each mark of its reads is, and is ranked.
ghost use Rattle.std.specs.Prelude.{◌≡◌, ◌++◌, drop, length, min, take};
ghost use Rattle.futures_lite.specs.Ranks.{number_ranks};
ghost use Rattle.futures_lite.specs.Own.{Steps, front_lowers, reader_by_steps, reader_counting};
ghost use Rattle.example_own.specs.Table.{TableStep, table_left, table_on};

use futures_lite::io::{AsyncRead, CountedRead, ReadSpec};
use futures_lite::{Context, Poll};
use std::io;

/// Reads a table from its place on, and then ends.
#[derive(Drop)]
pub struct Table {
    pub bytes: Vec<u8>,
    pub at: usize,
}

impl ReadSpec for Table {
    ghost reads = { Steps TableStep };

    ghost read_laws = { reader_by_steps TableStep };
}

impl Table {
    // The bytes that are to come.
    fn rest(&self) -> &[u8]
        ensures { result.now ≡ table_left self.now }
    {
        &self.bytes[self.at.min(self.bytes.len())..]
    }
}

impl AsyncRead for Table {
    #[tactic(auto, using(crate::specs::Table::table_laws, futures_lite::specs::Own::front_rules))]
    fn poll_read(&mut self, _cx: &mut Context<'_>, buf: &mut [u8]) -> Poll<io::Result<usize>> {
        let n = put(self.rest(), buf);
        self.at += n;
        Poll::Ready(Ok(n))
    }
}

// What is left falls with each byte, so a read to the end returns.
impl CountedRead for Table {
    ghost ranks = { number_ranks (λ x. length (table_left x)) };

    ghost counting = { reader_counting (front_lowers table_left table_on) };
}

// Copies as many bytes as there are and as there is room for, and says how many.
fn put(bytes: &[u8], buf: &mut [u8]) -> usize
    ensures count { result ≡ min (length bytes.now) (length buf.old) }
    ensures bytes { buf.new ≡ take result bytes.now ++ drop result buf.old }
{
    let n = bytes.len().min(buf.len());
    buf[..n].copy_from_slice(&bytes[..n]);
    n
}
