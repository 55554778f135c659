//! Answers as text.
ghost use Rattle.std.specs.Prelude.{◌≡◌, ◌++◌, ◌∷◌, [], ℕ, List, IfOk, OnOk, string_bytes};
ghost use Rattle.std.specs.Fmt.{signed_decimal};
ghost use Rattle.pollrun.specs.Spelling.{pair_text, spelled, spelled_list};

use itoa::{Buffer, Integer};
use lite_base::Poll;
use std::alloc::{AllocError, Global};

/// What can be printed as an item. The original has no such trait.
pub trait HasText: Copy {
    ghost text: { Self → List ℕ };

    /// Appends the text of the item. `Err` says that memory was refused; some of the text may stand in the line then.
    fn push_text(self, line: &mut String) -> Result<(), AllocError>
        ensures { OnOk result (string_bytes line.new ≡ string_bytes line.old ++ text self) };
}

fn push_number<I: Integer>(line: &mut String, number: I) -> Result<(), AllocError>
    ensures { OnOk result (string_bytes line.new ≡ string_bytes line.old ++ I.text number) }
{
    line.push_str(Buffer::new().format(number))
}

impl HasText for i32 {
    ghost text = { signed_decimal };

    fn push_text(self, line: &mut String) -> Result<(), AllocError> {
        push_number(line, self)
    }
}

impl HasText for i64 {
    ghost text = { signed_decimal };

    fn push_text(self, line: &mut String) -> Result<(), AllocError> {
        push_number(line, self)
    }
}

impl HasText for (i32, i32) {
    ghost text = { pair_text };

    fn push_text(self, line: &mut String) -> Result<(), AllocError> {
        self.0.push_text(line)?;
        line.push_str(":")?;
        self.1.push_text(line)
    }
}

fn push_answer<I: HasText>(text: &mut String, answer: &Poll<Option<I>>) -> Result<(), AllocError>
    ensures { OnOk result (string_bytes text.new ≡ string_bytes text.old ++ spelled I.text answer.now) }
{
    match answer {
        Poll::Pending => text.push_str("P"),
        Poll::Ready(None) => text.push_str("E"),
        Poll::Ready(Some(x)) => x.push_text(text),
    }
}

/// A line of these answers: P, E and the texts of items, separated by commas, and a newline.
pub fn line_of<I: HasText>(alloc: Global, answers: &[Poll<Option<I>>]) -> Result<String, AllocError>
    ensures { IfOk result (λ line. string_bytes line ≡ spelled_list I.text answers.now ++ 10 ∷ []) }
{
    let mut line = String::new(alloc);
    for (place, answer) in answers.iter().enumerate() {
        if place > 0 {
            line.push_str(",")?;
        }
        push_answer(&mut line, answer)?;
    }
    line.push_str("\n")?;
    Ok(line)
}
