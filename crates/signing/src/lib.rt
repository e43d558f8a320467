// Signing as the work goes: the job under work, its opening with a sheet, and the signing of a step by a person.
#![tactic(auto)]

use bits::sizes::{MOST_BYTES, MOST_STEPS};

mod bound;
mod hold;
pub mod open;
mod place;
mod question;
pub mod sign;

// The job under work, as it lies in the host's memory. All zero: never opened. It has no padding, and refers to nothing.
#[repr(C)]
#[derive(Clone, Copy)]
pub struct JobState {
    // Refused signings since the last opening that succeeded.
    pub refusals: u32,
    // The sheet of the job, zeros after its end.
    pub sheet_len: u32,
    pub sheet: [u8; MOST_BYTES],
    // Who signed each step that remains, counted from 1 in crew order; 0 for an open step.
    pub signer: [u8; MOST_STEPS],
}
