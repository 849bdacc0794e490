//! Tests of the public calls of `command_line`, what the words ask for, help, and refusals; and of `commands`, how it
//! ends and how often it reads and writes on the way. What the built program prints and says is played by `cases/`.
#![tactic(auto)]

#[cfg(test)]
mod host;
#[cfg(test)]
mod inputs;
#[cfg(test)]
mod program;
#[cfg(test)]
mod reading;
#[cfg(test)]
mod tries;
#[cfg(test)]
mod words;
