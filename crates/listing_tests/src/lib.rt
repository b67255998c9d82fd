// Tests of the keyed list, of the parents, and of the listing of payloads.
#![tactic(auto)]

#[cfg(test)]
mod keyed_list;
#[cfg(test)]
mod payloads;
