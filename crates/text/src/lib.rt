//! What plans and events share: decimal numbers, lines and their fields, memory, refusals.
#![tactic(auto)]

/// The letter and the fields of a line.
pub mod field;
/// The first line of a text.
pub mod line;
/// Bytes written into memory that is handed in.
pub mod memory;
/// Decimal numbers.
pub mod number;
/// Why a line or a text is refused.
pub mod refusal;
