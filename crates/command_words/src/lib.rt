//! The words of a command: which words are which command, with which options.
#![tactic(auto)]

mod numbers;
mod options;
#[cfg(test)]
mod tests;
mod words;

use turk_base::Settings;
pub use words::read_words;

/// A command. The words in files' places are not kept: they stand behind the command's own word, in order.
#[derive(Drop)]
pub enum Command {
    /// `plain SCRIPT [REPLIES] [OPTIONS]`, and whether there is a file of replies.
    Plain(bool, Settings),
    /// `run SCRIPT REPLIES JOURNAL TASKS [OPTIONS]`
    Run(Settings),
    /// `play SCRIPT EVENTS [OPTIONS]`
    Play(Settings),
    /// `show SCRIPT REPLIES JOURNAL`
    Show,
    /// `make N`, with a number from 1 to 100.
    Make(u64),
}

/// Why words give no command.
#[derive(Clone, Copy, Debug, Drop, PartialEq, Eq)]
pub enum WordStop {
    /// They are none.
    Usage,
    /// Memory ran out.
    Memory,
}
