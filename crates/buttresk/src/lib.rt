// The C face of the library (include/buttresk.h says all of it to a C program): the walk, the
// public copy, the writer, the inventory, the reader of a list and the decoded fields, as functions
// over lent octets and numbers that answer structs of numbers. Each is a thin coat over the library.
// The header has these structs field by field, under the same names but for two that a language
// keeps for itself: `template_number`, `type`.
#![tactic(auto)]

mod fields;
mod listing;
mod product;
mod storing;
mod walking;

pub use fields::{
    BitMapFields, GridFields, IdentificationFields, IndicatorFields, RepresentationFields,
    buttresk_bit_map, buttresk_grid_definition, buttresk_identification, buttresk_indicator,
    buttresk_representation,
};
pub use listing::{ReadAnswer, buttresk_read_list};
pub use product::{
    OctetField, ProductFields, Surface, SurfacesField, TimeField, WhenWhereFields,
    buttresk_product_definition, buttresk_when_and_where,
};
pub use storing::{StoreAnswer, buttresk_inventory, buttresk_publish, buttresk_write};
pub use walking::buttresk_walk;
