// Tests of the writer and of the layers over small files.
#![tactic(auto)]

#[cfg(test)]
mod tests;
