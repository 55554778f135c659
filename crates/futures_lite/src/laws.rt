//! Functions whose contracts state laws over whole runs, and traits that are laws of a type.

pub use lite_base::{ArmedFuture, ArmedStream, CalmFuture, CalmStream, SteadyFuture, SteadyStream};
pub use lite_bridge::answers_as_cursor;
pub use lite_buffered::{counts_after_seek, keeps_order};
pub use lite_io_base::{ArmedRead, ArmedWrite, CalmRead, CalmWrite, SteadyRead, SteadyWrite};
pub use lite_laws::{block_on_both, run, run_both, run_calm};
pub use lite_theorems::{
    CollectLinesFuture, collect_buffered_lines, collect_lines, collect_or, collect_race,
    copy_buffered, copy_chain, read_both, write_both,
};
