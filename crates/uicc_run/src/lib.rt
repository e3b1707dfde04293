//! Plays a script of commands, resets and planned faults to a simulated smart card of a mobile telephone (UICC), and writes the
//! trace of every command and answer.
#![tactic(auto)]

mod answering;
mod effects;
mod endings;
mod images;
mod laws;
mod listeners;
mod loading;
mod pages;
mod playing;
mod running;
mod terminals;

pub use answering::{answer, device_size, fits};
pub use command_line::{Devices, devices};
pub use endings::{Ending, Refusal, Task};
pub use laws::{numbers_are_standard, served_traces_are_one, traces_are_one};
pub use run_steps::CardEnd;
pub use running::{close, run};
