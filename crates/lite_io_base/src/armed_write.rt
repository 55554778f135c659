ghost use Rattle.lite_io_base.specs.Armed.{ArmsWrite};

use crate::async_write::AsyncWrite;

/// A writer whose every `Pending` has registered the task at a source, or has woken it.
pub trait ArmedWrite: AsyncWrite {
    /// Does nothing. The trait is its law.
    fn is_armed_write(&self) {}

    ghost armed: { ArmsWrite Self.writes Self.write_registers };
}
