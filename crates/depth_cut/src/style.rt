//! The style of a brush that is an entry of the brush cache ([MS-RDPEGDI] 2.2.2.2.1.1.2.3 and 2.2.2.2.1.1.2.10).

ghost use Rattle.std.specs.Prelude.{◌≡◌, ◌<◌, ◌≤◌, ℕ, ℤ, pos, [], length, set};
ghost use Rattle.px_core.specs.declared.rectangle.Rect.{Rect};
ghost use Rattle.px_core.specs.declared.depth.Depth.TheVariants.{Bits24, Bits16};
ghost use Rattle.order_fields.specs.OrderTable.{IsFieldList, field_list};
ghost use Rattle.order_fields.specs.NamedDrawing.{drawing_fields};
ghost use Rattle.order_fields.specs.NamedDrawing.NamedDrawing.{Pat, Mem3};
ghost use Rattle.depth_cut.specs.Style.{styled};

use order_fields::{Fields, MEM3_BLT, PAT_BLT};
use px_core::{Depth, cached_brush_style};

/// The most fields that an order has.
const MOST_VALUES: usize = 21;

/// The place of BrushStyle among the fields of PatBlt.
const PAT_STYLE: usize = 9;

/// The place of BrushStyle among the fields of Mem3Blt.
const MEM3_STYLE: usize = 12;

/// The fields of a PatBlt or Mem3Blt with the style of a cached brush of 16 bits, 84; those of other orders as they are. Takes no memory.
pub fn style16(f: Fields) -> Fields
    ensures is { result ≡ styled Bits16 f }
    ensures pattern { (r : Rect) (code entry : ℕ) → f ≡ drawing_fields Bits24 r (Pat r code entry) → result ≡ drawing_fields Bits16 r (Pat r code entry) }
    ensures both { (r : Rect) (cache index code entry : ℕ) (sx sy : ℤ) → f ≡ drawing_fields Bits24 r (Mem3 cache index r code sx sy entry)
        → result ≡ drawing_fields Bits16 r (Mem3 cache index r code sx sy entry) }
{
    f.recall_field_list();
    match f.kind() {
        PAT_BLT => with_style(PAT_BLT, f.values(), PAT_STYLE),
        MEM3_BLT => with_style(MEM3_BLT, f.values(), MEM3_STYLE),
        _ => f,
    }
}

/// A field list of values, with the style of a cached brush of 16 bits at a place.
fn with_style(kind: u8, values: &[i64], place: usize) -> Fields
    requires few { length values.now ≤ 21 }
    requires there { place < length values.now }
    requires fits { IsFieldList (field_list kind (set values.now place (pos 0x84)) []) }
    ensures { result ≡ field_list kind (set values.now place (pos 0x84)) [] }
{
    let mut all = [0; MOST_VALUES];
    let styled = &mut all[..values.len()];
    styled.copy_from_slice(values);
    styled[place] = i64::from(cached_brush_style(Depth::Bits16));
    Fields::plain(kind, styled)
}
