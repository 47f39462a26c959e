//! How a command line is described: by tables of arguments and commands.

/// The command line of a program.
pub struct Program {
    /// Its name.
    pub name: &'static str,
    /// Its version.
    pub version: &'static str,
    /// What it does.
    pub about: &'static str,
    /// What stands at the end of the help.
    pub after_help: &'static str,
    /// How it is used, if its words do not say it.
    pub usage: Option<&'static str>,
    /// Its words and options; where it has commands, those that stand before one.
    pub words: &'static [Word],
    /// Its commands, of which one has to be given. None for a program without commands.
    pub commands: &'static [Line],
}

/// A command of a program.
pub struct Line {
    /// Its name.
    pub name: &'static str,
    /// What it does.
    pub about: &'static str,
    /// How it is used, if its words do not say it.
    pub usage: Option<&'static str>,
    /// Its words and options.
    pub words: &'static [Word],
}

/// A word or an option.
pub struct Word {
    /// The id by which its values are found. An option is written as this id after `--`.
    pub id: &'static str,
    /// How it is given.
    pub kind: Kind,
    /// What it is.
    pub help: &'static str,
    /// The ids of those that are refused beside it.
    pub conflicts: &'static [&'static str],
    /// The ids of those that have to be given beside it.
    pub needs: &'static [&'static str],
}

/// How a word or an option is given.
pub enum Kind {
    /// One word, which the help shows by this name.
    One(&'static str),
    /// One word of this name, which may be left out.
    Optional(&'static str),
    /// One or more words of this name.
    Many(&'static str),
    /// An option without a value.
    Flag,
    /// An option with a value.
    Value {
        /// The name of the value in the help.
        name: &'static str,
        /// Which values it takes.
        taken: Taken,
        /// Its value where the option is not given; empty if it has none then.
        default: &'static [&'static str],
    },
}

/// Which values an option takes.
pub enum Taken {
    /// Any text.
    Any,
    /// One of these texts.
    Choice(&'static [&'static str]),
    /// A number below 2^32.
    U32,
    /// A number below 2^64.
    U64,
}
