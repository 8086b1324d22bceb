//! The drivers as definitions: the events that help a cluster on, node by node, the steps of `auto`,
//! and the generator and the turns of `storm`. They stand in specs/.
#![tactic(auto)]
