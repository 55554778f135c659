ghost use Rattle.std.specs.Prelude.{◌≡◌, ◌≤◌, ◌+◌, ◌<◌, ◌++◌, ◌∷◌, [], List, length, take, drop, map, OnOk, OnErr, MatchResult};
ghost use Rattle.lite_io_base.specs.Marks.{ReadMark, bytes};
ghost use Rattle.lite_io_base.specs.Steady.{NoPendingRead, strip_marks};
ghost use Rattle.lite_io_base.specs.Known.{ReadsScript};
ghost use Rattle.lite_io_base.specs.Laws.Steady.{told_calm, told_steady};
ghost use Rattle.lite_io_base.specs.Laws.Known.{told_falls, told_laws};
ghost use Rattle.lite_base.specs.Ranks.{number_ranks};
ghost use Rattle.lite_io_base.specs.Laws.Counting.{number_counting};
ghost use Rattle.lite_io_base.specs.Runs.{Idle};
ghost use Rattle.lite_io_base.specs.Laws.Runs.{idle_laws};

use lite_base::{Context, Poll};
use lite_io_base::{AsyncRead, CalmRead, CountedRead, ReadSpec, SteadyRead, WriteSpec};
use std::alloc::{AllocError, Global};
use std::io;
use std::io::ErrorKind;
use std::marker::Model;

/// A reader that gives chunks, pendings, errors and ends, in the order in which it was told of them, and then ends for
/// ever. A contract sees it as the list of the marks that are left.
///
/// A read takes from the chunk at the front as much as it has room for, or takes one other mark; a pending asks for another
/// poll, unless the reader is [`quiet`](Marks::quiet). Without room it answers `Ok(0)` at a chunk or an end, and takes
/// nothing. The original has no such type.
#[derive(Drop)]
pub struct Marks {
    answers: Vec<Answer>,
    // How many were taken.
    next: usize,
    // Whether a pending wakes no task.
    is_quiet: bool,
}

#[derive(Clone, Copy)]
enum Answer {
    Byte { byte: u8, ends_chunk: bool },
    Pending,
    Fault(ErrorKind),
    End,
}

impl Model for Marks {
    ghost use Rattle.std.specs.Prelude.{List, ◌≤◌, length};
    ghost use Rattle.lite_io_base.specs.Marks.{ReadMark};

    ghost Value = { List ReadMark };

    ghost use Rattle.lite_mock.specs.Marks.{marks_left};

    ghost view = { λ m. marks_left m.answers.items m.next };

    ghost invariant = { λ m. m.next ≤ length m.answers.items };
}

impl Marks {
    /// A reader that is at its end.
    pub fn new(alloc: Global) -> Marks
        ensures { result ≡ [] }
    {
        Marks {
            answers: Vec::new(alloc),
            next: 0,
            is_quiet: false,
        }
    }

    /// Returns the same reader, whose pendings wake no task.
    pub fn quiet(self) -> Marks
        ensures { result ≡ self }
    {
        Marks {
            answers: self.answers,
            next: self.next,
            is_quiet: true,
        }
    }

    /// Adds a chunk after what is there already. `AllocError` says that there was no memory; nothing changes then.
    pub fn chunk(&mut self, chunk: &[u8]) -> Result<(), AllocError>
        ensures { MatchResult result (λ _. self.new ≡ self.old ++ bytes chunk.now) (λ _. self.new ≡ self.old) }
    {
        self.answers.reserve(chunk.len())?;
        for (i, byte) in chunk.iter().enumerate() {
            let ends_chunk = i + 1 == chunk.len();
            let byte = *byte;
            self.answers
                .push_reserved(Answer::Byte { byte, ends_chunk });
        }
        Ok(())
    }

    /// Adds a pending, as `chunk` adds a chunk.
    pub fn pending(&mut self) -> Result<(), AllocError>
        ensures { MatchResult result (λ _. self.new ≡ self.old ++ ReadMark.pending ∷ []) (λ _. self.new ≡ self.old) }
    {
        self.answers.push(Answer::Pending)?;
        Ok(())
    }

    /// Adds an error, as `chunk` adds a chunk.
    pub fn fault(&mut self, kind: ErrorKind) -> Result<(), AllocError>
        ensures { MatchResult result (λ _. self.new ≡ self.old ++ ReadMark.fault kind ∷ []) (λ _. self.new ≡ self.old) }
    {
        self.answers.push(Answer::Fault(kind))?;
        Ok(())
    }

    /// Adds an end, as `chunk` adds a chunk.
    pub fn end(&mut self) -> Result<(), AllocError>
        ensures { MatchResult result (λ _. self.new ≡ self.old ++ ReadMark.end ∷ []) (λ _. self.new ≡ self.old) }
    {
        self.answers.push(Answer::End)?;
        Ok(())
    }
}

impl Clone for Marks {
    ghost is_clone = { λ a b. b ≡ a };

    fn clone(&self) -> Result<Marks, AllocError> {
        let answers = self.answers.clone()?;
        Ok(Marks {
            answers,
            next: self.next,
            is_quiet: self.is_quiet,
        })
    }
}

impl ReadSpec for Marks {
    ghost reads = { ReadsScript };

    ghost read_laws = { told_laws (λ x. x) };
}

// It is not written to.
impl WriteSpec for Marks {
    ghost writes = { Idle };

    ghost write_laws = { idle_laws };
}

impl AsyncRead for Marks {
    fn poll_read(&mut self, cx: &mut Context<'_>, buf: &mut [u8]) -> Poll<io::Result<usize>> {
        match self.answers.get(self.next) {
            None => Poll::Ready(Ok(0)),
            Some(Answer::Byte { .. }) => {
                let n = copy_chunk(&self.answers[self.next..], buf);
                self.next += n;
                Poll::Ready(Ok(n))
            }
            Some(Answer::Pending) => {
                self.next += 1;
                if self.is_quiet {
                    Poll::Pending
                } else {
                    cx.yield_now()
                }
            }
            Some(Answer::Fault(kind)) => {
                let error = io::Error::from(*kind);
                self.next += 1;
                Poll::Ready(Err(error))
            }
            Some(Answer::End) => {
                if !buf.is_empty() {
                    self.next += 1;
                }
                Poll::Ready(Ok(0))
            }
        }
    }
}

impl CountedRead for Marks {
    ghost ranks = { number_ranks (λ x. length x) };

    ghost counting = { number_counting told_falls };
}

// Two that say the same, pendings aside.
impl SteadyRead for Marks {
    ghost ample = { ReadsScript };

    ghost alike = { λ x y. strip_marks x ≡ strip_marks y };

    ghost steady = { told_steady (λ x. x) };
}

impl CalmRead for Marks {
    ghost is_calm = { NoPendingRead };

    ghost calm = { told_calm (λ x. x) };
}

ghost use Rattle.lite_mock.specs.Marks.{mark_of, BeginsChunk};

// Copies what `buf` has room for of the chunk that stands first, and answers how much.
fn copy_chunk(answers: &[Answer], buf: &mut [u8]) -> usize
    requires { BeginsChunk answers.now }
    ensures some { result ≡ 0 → length buf.old ≡ 0 }
    ensures within { result ≤ length buf.old }
    ensures copied { map mark_of (take result answers.now) ≡ bytes (take result buf.new) }
{
    let mut n = 0;
    for answer in answers {
        if n == buf.len() {
            break;
        }
        let Answer::Byte { byte, ends_chunk } = *answer else {
            break;
        };
        buf[n] = byte;
        n += 1;
        if ends_chunk {
            break;
        }
    }
    n
}
