//! Tests of the runs of the program by their public calls, where a reader or a writer fails in ways that a shell cannot
//! make, and where memory is refused: `tools/growths.sh` runs those of `growths`. All other runs are in
//! `tools/program_test.sh`. There is no code but these tests.
#![tactic(auto)]

#[cfg(test)]
mod failing;
#[cfg(test)]
mod files;
#[cfg(test)]
mod growths;
#[cfg(test)]
mod saying;
#[cfg(test)]
mod texts;
