// Domains, the people who may still do each step, narrowed by the rules.
#![tactic(auto)]

mod apart;
pub mod fixed;
mod load;
pub mod propagate;
mod restrict;
mod revise;
mod sets;
mod spread;
