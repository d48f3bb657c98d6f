//! One line of the trace that Valgrind's lackey writes with `--trace-mem=yes`: what it says, and the lines of memory that it
//! uses.
//!
//! A use of memory is `I  ADDR,SIZE` of code, or ` L ADDR,SIZE`, ` S ADDR,SIZE` or ` M ADDR,SIZE` of data. ADDR is hexadecimal
//! without a prefix, SIZE is decimal from 1 to 4,096, and their sum is at most 2^48. Lines that begin with `==`, as what
//! Valgrind says of itself, and lines of blanks are skipped; no other line is one of a trace.
#![tactic(auto)]

pub mod limits;
pub mod line;
mod reading;
pub mod theorems;
pub mod uses;

pub use limits::{MEMORY_BYTES, MOST_SIZE};
pub use line::{BadLine, LackeyKind, LackeyLine};
pub use reading::read_line;
pub use uses::{LineUse, LineUses};
