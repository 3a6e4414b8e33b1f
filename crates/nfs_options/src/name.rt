//! The subcommands by name, so that a match over them is complete.

ghost use Rattle.std.specs.Prelude.{◌≡◌};
ghost use Rattle.nfs_options.specs.CommandLine.{name_of};

/// The names of the subcommands.
#[derive(Clone, Copy, PartialEq, Eq)]
pub(crate) enum Name {
    Once,
    Serve,
    Audit,
}

impl Name {
    /// The name that is written so. clap accepts no other name than these three.
    pub(crate) fn of(text: &str) -> Name
        ensures { result ≡ name_of text.now }
    {
        if text == "audit" {
            Name::Audit
        } else if text == "serve" {
            Name::Serve
        } else {
            Name::Once
        }
    }
}
