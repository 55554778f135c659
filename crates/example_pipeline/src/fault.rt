//! Why the pipeline stops.
ghost use Rattle.example_pipeline.specs.declared.fault.Cause.TheVariants.{Output};
ghost use Rattle.programs.specs.Statuses.{WrapsBrokenPipe};

use programs::ProgramError;
use std::io;
use thiserror::Error;

/// Why the pipeline stopped, and at which line.
#[derive(Debug, Drop, Error)]
#[error("line {line}: {cause}")]
pub struct PipelineError {
    /// The number of the line, counted from 1. For an error of the output it is the last line that was read.
    pub line: u64,
    /// Why.
    pub cause: Cause,
}

/// Why the pipeline stopped at a line.
#[derive(Debug, Drop, Error)]
pub enum Cause {
    /// The line is not UTF-8.
    #[error("not UTF-8")]
    NotUtf8,
    /// The line is no whole number of 64 bits.
    #[error("not a number")]
    NotANumber,
    /// The sum of the window that the line belongs to passes 64 bits.
    #[error("the sum passes 64 bits")]
    Overflow,
    /// Memory was refused.
    #[error("out of memory")]
    Memory,
    /// The input gave this error before the line ended.
    #[error("cannot read: {0}")]
    Input(io::Error),
    /// The output gave this error.
    #[error("cannot write: {0}")]
    Output(io::Error),
}

impl ProgramError for PipelineError {
    ghost broken_pipe = { λ e. WrapsBrokenPipe Output e.cause };

    fn is_broken_pipe(&self) -> bool {
        match &self.cause {
            Cause::Output(e) => e.is_broken_pipe(),
            _ => false,
        }
    }
}
