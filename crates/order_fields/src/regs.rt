ghost use Rattle.std.specs.Prelude.{◌≡◌};
ghost use Rattle.order_fields.specs.OrderTable.{first_registers};

use crate::bounds::Bounds;
use crate::lasts::Lasts;
use crate::table::PAT_BLT;
use std::marker::Model;

/// The registers that orders are written and read with: the last type, the last fields of each type, and the last bounds, which all types share ([MS-RDPEGDI] 2.2.2.2.1.1.2).
#[derive(Drop)]
pub struct Regs {
    pub(crate) last: u8,
    pub(crate) lasts: Lasts,
    pub(crate) bounds: Bounds,
}

impl Model for Regs {
    ghost use Rattle.std.specs.Prelude.{◌≤◌};
    ghost use Rattle.order_fields.specs.OrderTable.{Registers, AreRegisters};
    ghost use Rattle.order_fields.specs.Kept.{registers_of};

    ghost Value = { Registers };

    ghost view = { λ r. registers_of r.last r.lasts r.bounds };

    ghost invariant = { λ r. AreRegisters (registers_of r.last r.lasts r.bounds) × (r.lasts.glyph_count ≤ 255) };
}

impl Regs {
    /// The registers at first: all fields and bounds are zero, and the last type is PatBlt.
    pub fn new() -> Regs
        ensures { result ≡ first_registers }
    {
        Regs {
            last: PAT_BLT,
            lasts: Lasts::new(),
            bounds: Bounds {
                left: 0,
                top: 0,
                right: 0,
                bottom: 0,
            },
        }
    }
}
