ghost use Rattle.lite_buffered.specs.Uses.{SeekKeeps};
ghost use Rattle.lite_buffered.specs.BufReader.{ahead_ranks, SeeksThrough};

use crate::buf_reader::BufReader;
use lite_io_base::{AsyncSeek, CountedRead};

/// States that a buffered reader is still `CountedRead` after a seek, with a rank
/// that counts and is as firm as before, if that is true of its inner reader.
///
/// So a call that consumes many bytes in one poll may be made after a seek, too.
#[tactic(auto, using(crate::specs::Laws::BufReader::seeks_keep))]
pub fn counts_after_seek<R: CountedRead + AsyncSeek>(_reader: &BufReader<R>)
    requires counts { SeekKeeps R.seeks R.ranks.counts }
    requires firm { SeekKeeps R.seeks R.ranks.firm }
    ensures counts { SeekKeeps (SeeksThrough R.seeks) (ahead_ranks R.ranks).counts }
    ensures firm { SeekKeeps (SeeksThrough R.seeks) (ahead_ranks R.ranks).firm }
{}
