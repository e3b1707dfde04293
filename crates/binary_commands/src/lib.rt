//! SELECT, STATUS, READ BINARY and UPDATE BINARY over a store (ETSI TS 102 221, 11.1.1 to 11.1.4), and what each command on a
//! file begins and ends with.
#![tactic(auto)]

mod access;
mod binaries;
mod selecting;
mod settling;
mod targets;
mod telling;

pub use access::is_allowed;
pub use binaries::{read_binary, update_binary};
pub use selecting::{select, status};
pub use settling::settle;
pub use targets::{addressed, is_deactivated, worked_on};
pub use telling::append;
