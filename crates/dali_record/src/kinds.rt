//! Which regions an operation is for.
ghost use Rattle.std.specs.Prelude.{◌≡◌};
ghost use Rattle.dali_record.specs.Legal;

use crate::operations::Op;
use dali_geometry::Geometry;

/// Whether the operation names a region of its kind.
pub fn on_kind(geometry: Geometry, region: u32, op: &Op) -> bool
    ensures { result ≡ Legal.on_kind geometry region op.now }
{
    match op {
        Op::Look => region < geometry.index(),
        Op::Add { .. } => region < geometry.index(),
        Op::KillEntry { .. } => region < geometry.index(),
        Op::FreeEntry { .. } => region < geometry.index(),
        Op::ReviveEntry { .. } => region < geometry.index(),
        _ => geometry.index() <= region && region < geometry.regions(),
    }
}
