ghost use Rattle.lite_io_base.specs.Runs.{MarkLaws};
ghost use Rattle.lite_io_base.specs.Stored.{Stored, unstored};
ghost use Rattle.lite_io_base.specs.WriteMarks.{WriteMark};
ghost use Rattle.lite_io_base.specs.Uses.{Runs};

/// The specification of a writer: which events its calls produce.
///
/// The events, called marks, are bytes that were taken, `Pending`, an error named by its kind, a flush and a
/// close. The specification is one relation over whole lists of marks.
pub trait WriteSpec {
    /// From the first value, writing calls produced these marks in order, and left the second value.
    ghost writes: { Runs WriteMark Self };

    ghost write_laws: { MarkLaws writes };

    /// The bytes that some values hold. It may say nothing.
    ghost stored: { Stored Self } = { unstored };
}
