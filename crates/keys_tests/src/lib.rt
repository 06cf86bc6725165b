// Tests of the lists of keys.
#![tactic(auto)]

#[cfg(test)]
mod tests;
