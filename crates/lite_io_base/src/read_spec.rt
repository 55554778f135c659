ghost use Rattle.lite_io_base.specs.Known.{Known, unknown};
ghost use Rattle.lite_io_base.specs.Marks.{ReadMark};
ghost use Rattle.lite_io_base.specs.Runs.{MarkLaws};
ghost use Rattle.lite_io_base.specs.Uses.{Runs};

/// The specification of a reader: which events its calls produce.
///
/// The events, called marks, are a byte, `Pending`, an error named by its kind, and an end of file. The
/// specification is one relation over whole lists of marks.
pub trait ReadSpec {
    /// From the first value, reading calls produced these marks in order, and left the second value.
    ghost reads: { Runs ReadMark Self };

    ghost read_laws: { MarkLaws reads };

    /// The bytes that some values will give, with no error. It may say nothing.
    ghost known: { Known Self } = { unknown };
}
