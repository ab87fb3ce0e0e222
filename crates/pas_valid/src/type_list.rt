//! A list of types that fit.

ghost use Rattle.pas_program.specs.Types.{TypesFit};

use pas_program::TypeDef;
use sqlite_items::Items;

/// The most scalars that an array may have.
pub const MOST_ELEMENTS: u32 = 1_000_000;

/// Types that fit: each stands behind those that it is made of.
#[derive(Drop)]
pub struct TypeList {
    pub list: Items<TypeDef>,
    pub ghost fits: { TypesFit list },
}
