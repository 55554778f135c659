ghost use Rattle.lite_io_base.specs.Armed.{ArmsRead};

use crate::async_read::AsyncRead;

/// A reader whose every `Pending` has registered the task at a source, or has woken it.
pub trait ArmedRead: AsyncRead {
    /// Does nothing. The trait is its law.
    fn is_armed_read(&self) {}

    ghost armed: { ArmsRead Self.reads Self.registers };
}
