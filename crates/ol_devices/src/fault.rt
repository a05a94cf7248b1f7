//! The count of the faults of a device.

ghost use Rattle.std.specs.Prelude.{◌≡◌, ◌≤◌};
ghost use Rattle.ol_ports.specs.Causes.{Rose, risen};

use ol_ports::Failed;

/// Counts a fault, up to the greatest `u64`.
pub(crate) fn fault(count: &mut u64) -> Failed
    ensures counted { count.new ≡ risen count.old }
    ensures later { count.old ≤ count.new }
    ensures cause { Rose count.old count.new }
{
    *count = count.saturating_add(1);
    Failed
}
