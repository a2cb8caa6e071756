//! The iterators of `Either`: over the items of its held side, alone or in the held variant, and over its one value, where both sides
//! have one type.

mod inner;
mod swap;
mod values;

pub use inner::InnerIterEither;
pub use swap::SwapIterEither;
pub use values::{IntoIterEither, IterEither, IterMutEither};
