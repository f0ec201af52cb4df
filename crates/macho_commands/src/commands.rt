//! The commands for Mach-O files: of each its name, its values, and the call that does it.
ghost use Rattle.std.specs.Prelude.{IfErr};
ghost use Rattle.macho_commands.specs.Engine.{MayFail};
ghost use Rattle.macho_commands.specs.Meaning.{macho_command_model};

/// `delete-rpath`.
pub mod delete {
    use crate::command::MachoCommand;
    use crate::engine::macho_execute;
    use crate::error::MachoCommandError;
    use std::rt::Files;

    /// The word that names the command.
    pub const NAME: &str = "delete-rpath";

    /// Remove a run path.
    #[derive(Debug, Drop)]
    pub struct Args {
        /// Run path to remove.
        pub rpath_to_remove: String,
        /// Path to the file to change.
        pub path_to_binary: String,
    }

    /// Edits the file.
    pub fn execute<R: Files + AllocGlobal>(rt: &R, args: Args) -> Result<(), MachoCommandError>
        ensures { IfErr result (MayFail (macho_command_model (MachoCommand.DeleteRpath args))) }
    {
        macho_execute(rt, MachoCommand::DeleteRpath(args))
    }
}

/// `change-rpath`.
pub mod change {
    use crate::command::MachoCommand;
    use crate::engine::macho_execute;
    use crate::error::MachoCommandError;
    use std::rt::Files;

    /// The word that names the command.
    pub const NAME: &str = "change-rpath";

    /// Put a run path in the place of another.
    #[derive(Debug, Drop)]
    pub struct Args {
        /// Run path to replace.
        pub old_rpath: String,
        /// Run path to put in its place.
        pub new_rpath: String,
        /// Path to the file to change.
        pub path_to_binary: String,
    }

    /// Edits the file.
    pub fn execute<R: Files + AllocGlobal>(rt: &R, args: Args) -> Result<(), MachoCommandError>
        ensures { IfErr result (MayFail (macho_command_model (MachoCommand.ChangeRpath args))) }
    {
        macho_execute(rt, MachoCommand::ChangeRpath(args))
    }
}

/// `add-rpath`.
pub mod add {
    use crate::command::MachoCommand;
    use crate::engine::macho_execute;
    use crate::error::MachoCommandError;
    use std::rt::Files;

    /// The word that names the command.
    pub const NAME: &str = "add-rpath";

    /// Add a run path.
    #[derive(Debug, Drop)]
    pub struct Args {
        /// Run path to add.
        pub new_rpath: String,
        /// Path to the file to change.
        pub path_to_binary: String,
    }

    /// Edits the file.
    pub fn execute<R: Files + AllocGlobal>(rt: &R, args: Args) -> Result<(), MachoCommandError>
        ensures { IfErr result (MayFail (macho_command_model (MachoCommand.AddRpath args))) }
    {
        macho_execute(rt, MachoCommand::AddRpath(args))
    }
}

/// `change-install-name`.
pub mod install_name {
    use crate::command::MachoCommand;
    use crate::engine::macho_execute;
    use crate::error::MachoCommandError;
    use std::rt::Files;

    /// The word that names the command.
    pub const NAME: &str = "change-install-name";

    /// Put a library name in the place of another.
    #[derive(Debug, Drop)]
    pub struct Args {
        /// Library name to replace.
        pub old_install_name: String,
        /// Library name to put in its place.
        pub new_install_name: String,
        /// Path to the file to change.
        pub path_to_binary: String,
    }

    /// Edits the file.
    pub fn execute<R: Files + AllocGlobal>(rt: &R, args: Args) -> Result<(), MachoCommandError>
        ensures { IfErr result
            (MayFail (macho_command_model (MachoCommand.ChangeInstallName args))) }
    {
        macho_execute(rt, MachoCommand::ChangeInstallName(args))
    }
}

/// `change-install-id`.
pub mod install_id {
    use crate::command::MachoCommand;
    use crate::engine::macho_execute;
    use crate::error::MachoCommandError;
    use std::rt::Files;

    /// The word that names the command.
    pub const NAME: &str = "change-install-id";

    /// Change the install id of a shared library.
    #[derive(Debug, Drop)]
    pub struct Args {
        /// New install id.
        pub new_install_id: String,
        /// Path to the file to change.
        pub path_to_binary: String,
    }

    /// Edits the file.
    pub fn execute<R: Files + AllocGlobal>(rt: &R, args: Args) -> Result<(), MachoCommandError>
        ensures { IfErr result (MayFail (macho_command_model (MachoCommand.ChangeInstallId args))) }
    {
        macho_execute(rt, MachoCommand::ChangeInstallId(args))
    }
}

/// `sign`.
pub mod sign {
    use crate::command::MachoCommand;
    use crate::engine::macho_execute;
    use crate::error::MachoCommandError;
    use std::rt::Files;

    /// The word that names the command.
    pub const NAME: &str = "sign";

    /// Make all pages of ad-hoc code signatures fit.
    #[derive(Debug, Drop)]
    pub struct Args {
        /// Path to the file to change.
        pub path_to_binary: String,
    }

    /// Edits the file.
    pub fn execute<R: Files + AllocGlobal>(rt: &R, args: Args) -> Result<(), MachoCommandError>
        ensures { IfErr result (MayFail (macho_command_model (MachoCommand.Sign args))) }
    {
        macho_execute(rt, MachoCommand::Sign(args))
    }
}

/// `verify`.
pub mod verify {
    use crate::command::MachoCommand;
    use crate::error::MachoCommandError;
    use crate::verifying::verify_file;
    use std::rt::Files;

    /// The word that names the command.
    pub const NAME: &str = "verify";

    /// Tell whether the pages of code signatures fit.
    #[derive(Debug, Drop)]
    pub struct Args {
        /// Path to the file to look at.
        pub path_to_binary: String,
    }

    /// Prints what is found; an error where some page does not fit.
    pub fn execute<R: Files + Print + AllocGlobal>(
        rt: &R,
        args: Args,
    ) -> Result<(), MachoCommandError>
        ensures { IfErr result (MayFail (macho_command_model (MachoCommand.Verify args))) }
    {
        verify_file(rt, &args.path_to_binary)
    }
}

/// `apply`.
pub mod apply {
    use crate::command::MachoCommand;
    use crate::engine::macho_execute;
    use crate::error::MachoCommandError;
    use std::rt::Files;

    /// The word that names the command.
    pub const NAME: &str = "apply";

    /// Several edits, all or none.
    #[derive(Debug, Drop)]
    pub struct Args {
        /// Path to the file to change.
        pub path_to_binary: String,
        /// The words of the edits, with a word `+` between two edits.
        pub edits: Vec<String>,
    }

    /// Edits the file.
    pub fn execute<R: Files + AllocGlobal>(rt: &R, args: Args) -> Result<(), MachoCommandError>
        ensures { IfErr result (MayFail (macho_command_model (MachoCommand.Apply args))) }
    {
        macho_execute(rt, MachoCommand::Apply(args))
    }
}

/// The edits of a list. No word names it: programs make it, and give its edits without words.
pub mod batch {
    use crate::command::MachoCommand;
    use crate::engine::macho_execute;
    use crate::error::MachoCommandError;
    use arwen_macho::macho::MachoEdit;
    use std::rt::Files;

    /// Several edits, all or none.
    #[derive(Debug, Drop)]
    pub struct Args {
        /// Path to the file to change.
        pub path_to_binary: String,
        /// The edits, the first one first.
        pub edits: Vec<MachoEdit>,
    }

    /// Edits the file.
    pub fn execute<R: Files + AllocGlobal>(rt: &R, args: Args) -> Result<(), MachoCommandError>
        ensures { IfErr result (MayFail (macho_command_model (MachoCommand.Batch args))) }
    {
        macho_execute(rt, MachoCommand::Batch(args))
    }
}
