//! What contracts see of a population by positions: where names and places stand in it, and its instances as rules see them.
#![tactic(auto)]
