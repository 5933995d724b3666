// The machine's registers and refusals; its definitions and their laws stand in specs/ and proofs/.
#![tactic(auto)]

pub mod lent;
pub mod refusal;
pub mod state;
