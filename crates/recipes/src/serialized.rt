//! Values written as JSON and read again, by the derives of `serde`.
ghost use Rattle.std.specs.Prelude.{◌≡◌};
ghost use Rattle.either_or_both.specs.Prelude.{IfOk, string_bytes};
ghost use Rattle.json.specs.Lex.{tokens};
ghost use Rattle.json.specs.Print.{print};

use either_or_both::EitherOrBoth;
use serde::{Deserialize, Serialize};
use serde_json::Error;
use std::alloc::Global;

/// A row of a table with two sides.
#[derive(Debug, PartialEq, Serialize, Deserialize, Drop)]
pub struct Row {
    pub key: u32,
    pub cells: EitherOrBoth<String, u8>,
}

/// The row as text, such as `{"key":1,"cells":{"Both":["a",2]}}`.
pub fn to_json(alloc: Global, row: &Row) -> Result<String, Error>
    ensures compact { IfOk result (λ s. string_bytes s ≡ print (tokens (string_bytes s))) }
{
    serde_json::to_string(alloc, row)
}

/// The row that a text holds.
pub fn from_json(alloc: Global, text: &str) -> Result<Row, Error> {
    serde_json::from_str(alloc, text)
}
